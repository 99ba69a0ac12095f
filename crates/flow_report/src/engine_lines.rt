// The lines of engines, read.
ghost use Rattle.std.specs.Prelude.{◌≡◌, ◌↔◌, [], ◌∷◌, ◌++◌, IsTrue, IfOk};
ghost use Rattle.flow_report.specs.EngineOrder.{HasRisingEngines};
ghost use Rattle.flow_report.specs.Ranges.{IsEngineInRange};
ghost use Rattle.flow_report.specs.ReadBack.{HasJustEngineLines, IsNextEngine};
ghost use Rattle.flow_report.specs.Reading.{IsFrontOf};
ghost use Rattle.flow_report.specs.Text.{engine_text};

use crate::number::{read_named, read_number};
use netflow_five::EngineLine;
use std::alloc::AllocError;

/// Reads good lines of engines as long as they follow, and answers what stands after them.
pub(crate) fn read_engines<'a>(
    text: &'a [u8],
    engines: &mut Vec<EngineLine>,
) -> Result<&'a [u8], AllocError>
    requires { engines.old.items ≡ [] }
    ensures { IfOk result (λ rest. HasJustEngineLines text.now engines.new.items rest.now) }
{
    let mut rest = text;
    while let Some((line, after)) = next_engine(rest, engines.as_slice()) {
        engines.push(line)?;
        rest = after;
    }
    Ok(rest)
}

/// The engine whose line the text begins with, where it is above those before.
fn next_engine<'a>(text: &'a [u8], before: &[EngineLine]) -> Option<(EngineLine, &'a [u8])>
    requires { HasRisingEngines before.now }
    ensures { IsFrontOf engine_text (IsNextEngine before.now) text.now result }
{
    let (line, rest) = read_engine(text)?;
    if is_above(&line, before) {
        Some((line, rest))
    } else {
        None
    }
}

/// Whether the engine is above those before, by type and then by id.
fn is_above(line: &EngineLine, before: &[EngineLine]) -> bool
    requires { HasRisingEngines before.now }
    ensures { IsTrue result ↔ HasRisingEngines (before.now ++ line.now ∷ []) }
{
    match before.last() {
        Some(last) => (last.engine_type, last.engine_id) < (line.engine_type, line.engine_id),
        None => true,
    }
}

/// The engine whose line the text begins with, and what stands after that line.
fn read_engine(text: &[u8]) -> Option<(EngineLine, &[u8])>
    ensures { IsFrontOf engine_text IsEngineInRange text.now result }
{
    let (engine_type, text) = read_named(text, b"engine", 255, b' ')?;
    let (engine_id, text) = read_number(text, 255, b' ')?;
    let (flows, text) = read_named(text, b"flows", u64::MAX, b' ')?;
    let (lost, text) = read_named(text, b"lost", u64::MAX, b' ')?;
    let (resets, text) = read_named(text, b"resets", u64::MAX, b'\n')?;
    let line = EngineLine {
        engine_type: engine_type as u8,
        engine_id: engine_id as u8,
        flows,
        lost,
        resets,
    };
    Some((line, text))
}
