ghost use Rattle.std.specs.Prelude.{◌≡◌, ◌≤◌, ◌∷◌, ℕ, List, IfOk, IfErr, IfSome, length, option_map};
ghost use Rattle.call_script.specs.Cut.{lines_of, parts_in};
ghost use Rattle.call_script.specs.Line.{MayHaveCallers, NamesCallers};
ghost use Rattle.call_script.specs.Script.{Good, MayRun, ReadAs, Reading, bad_reading, reading_of};
ghost use Rattle.seat_history.specs.Object.{blank_object};

use crate::bad_script::{BadScript, LineCause};
use crate::cut::{cut, whole_lines};
use crate::holding::{may_call, note_call};
use crate::lines::{read_call, read_callers};
use crate::lists::LineList;
use crate::script::{MOST_LINES, Script};
use seat_history::{CALLERS, Entry};
use std::alloc::Global;

// The shortest call line, with its line feed.
const SHORTEST: usize = 7;

// The calls of the lines after line 1.
fn read_calls(
    alloc: Global,
    bytes: Option<&[u8]>,
    callers: u32,
    room: usize,
) -> Result<Vec<Entry>, BadScript>
    requires { MayHaveCallers callers }
    ensures good { IfOk result (λ calls. (first : List ℕ) → NamesCallers first callers
        → ReadAs (first ∷ parts_in 10 (option_map (λ rest. rest.now) bytes.entry)) (Good callers calls.items)) }
    ensures bad { IfErr result (λ bad. (first : List ℕ) → NamesCallers first callers
        → IfSome (bad_reading bad) (ReadAs (first ∷ parts_in 10 (option_map (λ rest. rest.now) bytes.entry)))) }
{
    let mut calls = Vec::with_capacity(alloc, room)?;
    let mut holding = [false; CALLERS];
    let mut rest = bytes;
    'lines: while let Some(bytes) = rest {
        let number = calls.len() as u32 + 2;
        if calls.len() == MOST_LINES {
            return Err(BadScript::TooMany { line: number });
        }
        let (line, after) = cut(bytes, b'\n');
        let entry = match read_call(line, callers) {
            Ok(entry) => entry,
            Err(cause) => return Err(BadScript::BadLine {
                line: number,
                cause,
            }),
        };
        if !may_call(&holding, &entry) {
            return Err(BadScript::BadLine {
                line: number,
                cause: LineCause::Held,
            });
        }
        note_call(&mut holding, &entry);
        calls.push(entry)?;
        rest = after;
    }
    Ok(calls)
}

fn read_whole(alloc: Global, bytes: &[u8]) -> Result<Script, BadScript>
    ensures { IfSome (reading_of result) (ReadAs (lines_of bytes.now)) }
{
    let (first, rest) = cut(whole_lines(bytes), b'\n');
    let callers = match read_callers(first) {
        Ok(callers) => callers,
        Err(cause) => return Err(BadScript::BadLine { line: 1, cause }),
    };
    let room = (bytes.len() / SHORTEST).min(MOST_LINES);
    let lines = read_calls(alloc, rest, callers, room)?;
    Ok(Script {
        callers,
        lines: LineList::of_vec(lines),
    })
}

/// The script that the bytes spell, or its first bad line.
pub fn read_script(alloc: Global, bytes: &[u8]) -> Result<Script, BadScript>
    ensures reads { IfSome (reading_of result) (ReadAs (lines_of bytes.now)) }
    // The lines read as nothing else.
    ensures only { (other : Reading) → ReadAs (lines_of bytes.now) other → IfSome (reading_of result) (λ reading. reading ≡ other) }
    // Its calls may be made in turn.
    ensures callers { IfOk result (λ script. MayHaveCallers script.callers) }
    ensures may { IfOk result (λ script. MayRun script.callers blank_object script.lines) }
    ensures few { IfOk result (λ script. length script.lines ≤ 65536) }
{
    read_whole(alloc, bytes)
}
