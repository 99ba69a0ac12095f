//! A seat for each number, and the seats back in one.
ghost use Rattle.std.specs.Prelude.{◌≡◌, ◌<◌, All, IfOk, length, true};
ghost use Rattle.big_atomic.specs.Ready.{IsReady};
ghost use Rattle.big_atomic.specs.Seats.{AreSplit, IsJoinedAll, IsQuietOf};
ghost use Rattle.step_rules.specs.Steps.{IsSplit};

use std::alloc::Global;
use step_rules::{Seat, Shared};
use wire_ports::NoMemory;

/// Splits a fresh seat into one for each of its numbers, by rising number; the given one is the first
/// of them. Each may go to a thread of its own. Where memory runs out, all of them are dropped.
pub fn split_all(alloc: Global, shared: &Shared, seat: Seat) -> Result<Vec<Seat>, NoMemory>
    requires ready { IsReady shared.now seat }
    requires fresh { seat.fresh ≡ true }
    ensures split { IfOk result (λ seats. AreSplit shared.now seat seats.items) }
{
    let mut first = seat;
    let mut seats = Vec::new(alloc);
    while first.numbers() > 1 {
        seats.push(split_last(alloc, shared, &mut first)?)?;
    }
    seats.push(first)?;
    seats.reverse();
    Ok(seats)
}

// Splits the greatest number off a fresh seat.
fn split_last(alloc: Global, shared: &Shared, seat: &mut Seat) -> Result<Seat, NoMemory>
    requires ready { IsReady shared.now seat.old }
    requires fresh { seat.old.fresh ≡ true }
    requires more { 1 < length seat.old.view.numbers }
    ensures split { IfOk result (λ made. IsSplit seat.old seat.new made) }
    ensures ready { IfOk result (λ made. IsReady shared.now seat.new × IsReady shared.now made) }
{
    shared.split(alloc, seat)
}

/// Takes quiet seats into the first one: it has their numbers and their stands, in order.
pub fn join_all(shared: &Shared, first: &mut Seat, rest: Vec<Seat>)
    requires first { first.old.first ≡ true }
    requires ours { IsQuietOf shared.now first.old }
    requires theirs { All (IsQuietOf shared.now) rest.items }
    ensures joined { IsJoinedAll shared.now first.old rest.items first.new }
{
    // Where no seat is left to take in, the first one is ready by its law. The caller owes none.
    first.law();
    for seat in rest {
        shared.join(first, seat);
    }
}
