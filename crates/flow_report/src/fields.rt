// The fields of a flow's line, each read from the front of a text.
ghost use Rattle.std.specs.Prelude.{◌<◌, ◌^◌};
ghost use Rattle.flow_report.specs.Ranges.{IsKeyInRange, IsValueInRange, IsFlowInRange};
ghost use Rattle.flow_report.specs.Reading.{IsFrontOf};
ghost use Rattle.flow_report.specs.Text.{address_text, key_text, value_text, flow_line};

use crate::number::read_number;
use flow_fold::{Key, Value};

/// The flow whose line the text begins with, and what stands after that line.
pub(crate) fn read_flow(text: &[u8]) -> Option<((Key, Value), &[u8])>
    ensures { IsFrontOf flow_line IsFlowInRange text.now result }
{
    let (key, text) = read_key(text)?;
    let (value, text) = read_value(text)?;
    Some(((key, value), text))
}

fn read_key(text: &[u8]) -> Option<(Key, &[u8])>
    ensures { IsFrontOf key_text IsKeyInRange text.now result }
{
    let (source, text) = read_address(text)?;
    let (destination, text) = read_address(text)?;
    let (source_port, text) = read_number(text, 65_535, b' ')?;
    let (destination_port, text) = read_number(text, 65_535, b' ')?;
    let (protocol, text) = read_number(text, 255, b' ')?;
    let (service, text) = read_number(text, 255, b' ')?;
    let (input, text) = read_number(text, 65_535, b' ')?;
    let key = Key {
        k0: (u64::from(source) << 32) + u64::from(destination),
        k1: (source_port << 48)
            + (destination_port << 32)
            + (protocol << 24)
            + (service << 16)
            + input,
    };
    Some((key, text))
}

fn read_address(text: &[u8]) -> Option<(u32, &[u8])>
    ensures { IsFrontOf address_text (λ a. a < 2 ^ 32) text.now result }
{
    let (first, text) = read_number(text, 255, b'.')?;
    let (second, text) = read_number(text, 255, b'.')?;
    let (third, text) = read_number(text, 255, b'.')?;
    let (fourth, text) = read_number(text, 255, b' ')?;
    let address = (first << 24) + (second << 16) + (third << 8) + fourth;
    Some((address as u32, text))
}

fn read_value(text: &[u8]) -> Option<(Value, &[u8])>
    ensures { IsFrontOf value_text IsValueInRange text.now result }
{
    let (packets, text) = read_number(text, u64::MAX, b' ')?;
    let (octets, text) = read_number(text, u64::MAX, b' ')?;
    let (first, text) = read_number(text, u64::MAX, b' ')?;
    let (last, text) = read_number(text, u64::MAX, b' ')?;
    let (flags, text) = read_number(text, u64::MAX, b'\n')?;
    let value = Value {
        packets,
        octets,
        first,
        last,
        flags,
    };
    Some((value, text))
}
