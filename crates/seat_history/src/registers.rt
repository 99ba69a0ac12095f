// The registers of the object of one thread.
ghost use Rattle.std.specs.Prelude.{◌≡◌, ◌<◌, length, IfOk, if◌then◌else◌};
ghost use Rattle.seat_history.specs.Contents.{blank, set_at};
ghost use Rattle.seat_history.specs.Plain.{registers_of};
ghost use Rattle.seat_history.specs.Step.{is_same, registers_after};
ghost use Rattle.seat_history.specs.declared.call.Call.TheVariants.{Swap};
ghost use Rattle.seat_history.specs.declared.reply.Reply.TheVariants.{Yes, No};

use crate::reply::Reply;
use crate::words::{Rec, WIDTH};
use std::alloc::{AllocError, Global};

#[tactic(auto, using(crate::proofs::Blank::get_or_replicate_same))]
pub(crate) fn zeroed(alloc: Global, count: usize) -> Result<Vec<Rec>, AllocError>
    ensures zeros { IfOk result (λ all. registers_of all.items ≡ blank.registers) }
    ensures count { IfOk result (λ all. length all.items ≡ count) }
{
    vec![in alloc; [0; WIDTH]; count]
}

pub(crate) fn store(registers: &mut [Rec], reg: u32, new: Rec)
    requires { reg < length registers.old }
    ensures { registers_of registers.new ≡ set_at (registers_of registers.old) reg new }
{
    registers[reg as usize] = new;
}

pub(crate) fn swap(registers: &mut [Rec], reg: u32, old: Rec, new: Rec) -> Reply
    requires { reg < length registers.old }
    ensures reply { result ≡ (if is_same (registers_of registers.old reg) old then Yes else No) }
    ensures swapped { registers_of registers.new ≡ registers_after (registers_of registers.old) (Swap reg old new) }
{
    if registers[reg as usize] == old {
        registers[reg as usize] = new;
        Reply::Yes
    } else {
        Reply::No
    }
}
