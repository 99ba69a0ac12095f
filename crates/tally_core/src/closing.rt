//! All workers' seats in one, and the object closed with it.
ghost use Rattle.std.specs.List.{range_with_len};
ghost use Rattle.std.specs.Prelude.{◌≡◌, IfOk, length, map};
ghost use Rattle.big_atomic.specs.Seats.{AreLed, all_numbers};
ghost use Rattle.call_script.specs.Row.{EndsAs};
ghost use Rattle.seat_history.specs.History.{state_at};
ghost use Rattle.step_rules.specs.Views.{count_up};
ghost use Rattle.tally_core.specs.Workers.{AreDone, HasClosed, HasGathered, seats_of};

use crate::worker::Worker;
use big_atomic::{Closed, NoMemory, Rec, Seat, Shared};
use call_script::{Driven, REGISTERS, RecList, ReplyList};
use hazard_claims::scan;
use seat_history::Reply;
use std::alloc::{AllocError, Global};

/// Closes the object with all workers' seats. A last scan leaves nothing retired.
pub(crate) fn close_all<T: Drop>(shared: Shared, workers: Vec<Worker<T>>) -> Closed
    requires done { AreDone shared workers.items }
    requires led { AreLed (seats_of workers.items) }
    requires whole { all_numbers (seats_of workers.items) ≡ count_up 0 shared.plan.seats }
    ensures closed { HasClosed shared (seats_of workers.items) result }
{
    let mut seat = gather(&shared, workers);
    scan(&shared, &mut seat);
    shared.close(seat)
}

// Takes all other seats into the first one.
fn gather<T: Drop>(shared: &Shared, workers: Vec<Worker<T>>) -> Seat
    requires done { AreDone shared.now workers.items }
    requires led { AreLed (seats_of workers.items) }
    ensures gathered { HasGathered shared.now (seats_of workers.items) result }
{
    let mut workers = workers.into_iter();
    let Some(first) = workers.next() else {
        unreachable!()
    };
    let mut seat = first.seat;
    for other in workers {
        shared.join(&mut seat, other.seat);
    }
    seat
}

/// The replies, and what the closed object has.
pub(crate) fn contents_of(
    alloc: Global,
    closed: &Closed,
    replies: Vec<Reply>,
) -> Result<Driven, NoMemory>
    requires registers { closed.now.plan.registers ≡ 16 }
    ensures replies { IfOk result (λ driven. driven.replies ≡ replies.items) }
    ensures contents { IfOk result (λ driven. EndsAs closed.now driven) }
{
    Ok(Driven {
        replies: ReplyList::of_vec(replies),
        registers: RecList::of_vec(all_registers(alloc, closed)?),
        pairs: closed.pairs(alloc)?,
        counts: closed.counts(),
    })
}

// What each register has.
fn all_registers(alloc: Global, closed: &Closed) -> Result<Vec<Rec>, AllocError>
    requires registers { closed.now.plan.registers ≡ 16 }
    ensures { IfOk result (λ registers. registers.items ≡ map (state_at closed.now.history (length closed.now.history)).registers (range_with_len 0 16)) }
{
    let mut registers = Vec::with_capacity(alloc, REGISTERS as usize)?;
    for reg in 0..REGISTERS {
        registers.push(closed.register(reg))?;
    }
    Ok(registers)
}
