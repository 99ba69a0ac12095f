ghost use Rattle.std.specs.Prelude.{◌≡◌, ◌≤◌, ◌<◌, IfOk, OnOk};
ghost use Rattle.call_script.specs.PlainRun.{IsPlainRun};
ghost use Rattle.call_script.specs.Run.{registers_in};
ghost use Rattle.call_script.specs.Script.{MayRun};
ghost use Rattle.seat_history.specs.History.{object_from, replies_from};
ghost use Rattle.seat_history.specs.Object.{blank_object};
ghost use Rattle.seat_history.specs.Plain.{object_of, register_count};

use crate::driven::PlainRun;
use crate::lists::{RecList, ReplyList};
use crate::script::{REGISTERS, Script};
use seat_history::{CALLERS, Entry, Plain, Rec, Reply};
use std::alloc::Global;
use wire_ports::NoMemory;

// Makes the calls in turn.
fn call_all(
    alloc: Global,
    plain: &mut Plain,
    callers: u32,
    calls: &[Entry],
) -> Result<Vec<Reply>, NoMemory>
    requires callers { callers ≤ 64 }
    requires registers { register_count plain.old ≡ 16 }
    requires may { MayRun callers (object_of plain.old) calls.now }
    ensures replies { IfOk result (λ replies. replies.items ≡ replies_from (object_of plain.old) calls.now) }
    ensures object { OnOk result (object_of plain.new ≡ object_from (object_of plain.old) calls.now) }
    ensures registers { register_count plain.new ≡ 16 }
{
    let mut replies = Vec::with_capacity(alloc, calls.len())?;
    for entry in calls {
        replies.push(plain.call(entry.caller, entry.call)?)?;
    }
    Ok(replies)
}

fn all_registers(alloc: Global, plain: &Plain) -> Result<Vec<Rec>, NoMemory>
    requires { register_count plain.now ≡ 16 }
    ensures { IfOk result (λ registers. registers.items ≡ registers_in (object_of plain.now) 16) }
{
    let mut registers = Vec::with_capacity(alloc, REGISTERS as usize)?;
    for reg in 0..REGISTERS {
        registers.push(plain.register(reg))?;
    }
    Ok(registers)
}

/// Calls the lines of a script on the object of one thread.
pub fn run_plain(alloc: Global, script: &Script) -> Result<PlainRun, NoMemory>
    requires callers { script.now.callers ≤ 64 }
    requires may { MayRun script.now.callers blank_object script.now.lines }
    ensures { IfOk result (λ run. IsPlainRun script.now.lines run) }
{
    let mut plain = Plain::new(alloc, REGISTERS)?;
    let replies = call_all(alloc, &mut plain, script.callers, script.lines.as_slice())?;
    Ok(PlainRun {
        replies: ReplyList::of_vec(replies),
        registers: RecList::of_vec(all_registers(alloc, &plain)?),
        pairs: plain.pairs(alloc)?,
    })
}
