// Lines of the report and their parts, each put at the end of one text.
ghost use Rattle.std.specs.Prelude.{◌≡◌, ◌≤◌, [], ◌∷◌, ◌++◌, length, OnOk};
ghost use Rattle.flow_report.specs.Ranges.{IsKeyInRange, IsValueInRange, IsFlowInRange, IsEngineInRange, AreTotalsInRange};
ghost use Rattle.flow_report.specs.Text.{space, number_then, address_text, key_text, value_text, flow_line, named, named_then, sums_text, totals_text, last_line, engine_text};

use crate::sums::Sums;
use crate::totals::Totals;
use decimal_text::{TextWriter, decimal_len};
use flow_fold::{Key, Value};
use netflow_five::EngineLine;
use std::alloc::AllocError;

/// Four numbers of up to three digits, and three dots.
const ADDRESS_ROOM: usize = 4 * 3 + 3;

/// Two addresses, two ports, protocol and type of service, the interface; seven spaces.
pub(crate) const KEY_ROOM: usize = 2 * (ADDRESS_ROOM + 5 + 3) + 5 + 7;

/// Four words, type and id, three numbers; eight spaces and the line feed.
pub(crate) const ENGINE_ROOM: usize = (6 + 5 + 4 + 6) + 2 * 3 + 3 * 20 + 9;

/// Five words, the number of flows, two sums of 128 bits, two totals; nine spaces and the line feed.
pub(crate) const LAST_LINE_ROOM: usize = (5 + 7 + 6 + 7 + 9) + 20 + 2 * 39 + 2 * 20 + 10;

/// How many bytes the words of a value have, and the line's end.
pub(crate) fn value_len(value: Value) -> usize
    ensures length { result ≡ length (value_text value) }
    ensures short { result ≤ 105 }
{
    decimal_len(value.packets)
        + decimal_len(value.octets)
        + decimal_len(value.first)
        + decimal_len(value.last)
        + decimal_len(value.flags)
        + 5
}

/// A number and the byte after it.
fn add_number(text: &mut TextWriter, number: u64, after: u8) -> Result<(), AllocError>
    ensures { OnOk result (text.new ≡ text.old ++ number_then after number) }
{
    text.push_number(number)?;
    text.push_byte(after)
}

/// An address and the space after it.
#[tactic(auto, unfolding(crate::specs::Text::dotted, crate::specs::Text::address_text))]
fn add_address(text: &mut TextWriter, address: u32) -> Result<(), AllocError>
    ensures { OnOk result (text.new ≡ text.old ++ address_text address) }
{
    add_number(text, u64::from(address >> 24), b'.')?;
    add_number(text, u64::from((address >> 16) % 256), b'.')?;
    add_number(text, u64::from((address >> 8) % 256), b'.')?;
    add_number(text, u64::from(address % 256), b' ')?;
    Ok(())
}

/// The words of a key, each with a space after it.
fn add_key(text: &mut TextWriter, key: Key) -> Result<(), AllocError>
    ensures text { OnOk result (text.new ≡ text.old ++ key_text key) }
    ensures in_range { OnOk result (IsKeyInRange key) }
{
    add_address(text, (key.k0 >> 32) as u32)?;
    add_address(text, (key.k0 % (1 << 32)) as u32)?;
    add_number(text, key.k1 >> 48, b' ')?;
    add_number(text, (key.k1 >> 32) % 65_536, b' ')?;
    add_number(text, (key.k1 >> 24) % 256, b' ')?;
    add_number(text, (key.k1 >> 16) % 256, b' ')?;
    add_number(text, key.k1 % 65_536, b' ')?;
    Ok(())
}

/// The words of a value, and the line's end.
#[tactic(auto, unfolding(crate::specs::Text::words_then, crate::specs::Text::value_text))]
fn add_value(text: &mut TextWriter, value: Value) -> Result<(), AllocError>
    ensures text { OnOk result (text.new ≡ text.old ++ value_text value) }
    ensures in_range { OnOk result (IsValueInRange value) }
{
    add_number(text, value.packets, b' ')?;
    add_number(text, value.octets, b' ')?;
    add_number(text, value.first, b' ')?;
    add_number(text, value.last, b' ')?;
    add_number(text, value.flags, b'\n')?;
    Ok(())
}

/// The line of a flow.
#[tactic(auto, unfolding(crate::specs::Text::flow_line))]
pub(crate) fn add_flow(text: &mut TextWriter, flow: &(Key, Value)) -> Result<(), AllocError>
    ensures line { OnOk result (text.new ≡ text.old ++ flow_line flow.now) }
    ensures in_range { OnOk result (IsFlowInRange flow.now) }
{
    add_key(text, flow.0)?;
    add_value(text, flow.1)?;
    Ok(())
}

/// A word, a number and the byte after it.
#[tactic(auto, unfolding(crate::specs::Text::named, crate::specs::Text::named_then))]
fn add_named(text: &mut TextWriter, word: &[u8], number: u128, after: u8) -> Result<(), AllocError>
    ensures { OnOk result (text.new ≡ text.old ++ named_then after word.now number) }
{
    text.push_bytes(word)?;
    text.push_byte(b' ')?;
    text.push_number(number)?;
    text.push_byte(after)
}

/// The line of an engine.
pub(crate) fn add_engine(text: &mut TextWriter, line: EngineLine) -> Result<(), AllocError>
    ensures line { OnOk result (text.new ≡ text.old ++ engine_text line) }
    ensures in_range { OnOk result (IsEngineInRange line) }
{
    add_named(text, b"engine", u128::from(line.engine_type), b' ')?;
    add_number(text, u64::from(line.engine_id), b' ')?;
    add_named(text, b"flows", u128::from(line.flows), b' ')?;
    add_named(text, b"lost", u128::from(line.lost), b' ')?;
    add_named(text, b"resets", u128::from(line.resets), b'\n')?;
    Ok(())
}

/// The first half of the last line: what the flow lines say together.
#[tactic(auto, unfolding(crate::specs::Text::named_then, crate::specs::Text::words_then, crate::specs::Text::sums_text))]
pub(crate) fn add_sums(text: &mut TextWriter, sums: Sums) -> Result<(), AllocError>
    ensures { OnOk result (
        text.new ≡ text.old ++ sums_text sums.flows sums.packets sums.octets) }
{
    add_named(text, b"flows", sums.flows as u128, b' ')?;
    add_named(text, b"packets", sums.packets, b' ')?;
    add_named(text, b"octets", sums.octets, b' ')?;
    Ok(())
}

/// The second half of the last line: how much was read.
#[tactic(auto, unfolding(crate::specs::Text::named_then, crate::specs::Text::words_then, crate::specs::Text::totals_text))]
fn add_totals(text: &mut TextWriter, totals: Totals) -> Result<(), AllocError>
    ensures text { OnOk result (text.new ≡ text.old ++ totals_text totals) }
    ensures in_range { OnOk result (AreTotalsInRange totals) }
{
    add_named(text, b"records", u128::from(totals.records), b' ')?;
    add_named(text, b"datagrams", u128::from(totals.datagrams), b'\n')?;
    Ok(())
}

/// The last line.
#[tactic(auto, unfolding(crate::specs::Text::last_line))]
pub(crate) fn add_last(text: &mut TextWriter, sums: Sums, totals: Totals) -> Result<(), AllocError>
    ensures line { OnOk result (
        text.new ≡ text.old ++ last_line sums.flows sums.packets sums.octets totals) }
    ensures in_range { OnOk result (AreTotalsInRange totals) }
{
    add_sums(text, sums)?;
    add_totals(text, totals)?;
    Ok(())
}
