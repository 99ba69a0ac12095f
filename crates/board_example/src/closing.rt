//! The end: all seats are joined, and the object is closed.
ghost use Rattle.std.specs.Prelude.{◌≡◌, ◌++◌, All, length, true};
ghost use Rattle.big_atomic.specs.Seats.{AreLed, all_numbers};
ghost use Rattle.board_example.specs.Ending.{IsEnding};
ghost use Rattle.board_example.specs.Rules.{HasDone, seats_of};

use crate::member::Member;
use big_atomic::{Closed, Shared};

/// The closed object, how many counts were answered Yes, and how many readings were not whole.
#[derive(Drop)]
pub(crate) struct Outcome {
    pub(crate) closed: Closed,
    pub(crate) yes: u64,
    pub(crate) torn: u64,
}

/// Joins all seats into the first one, and adds up what they counted.
pub(crate) fn gather(shared: &Shared, members: Vec<Member>) -> Member
    requires done { All (HasDone shared.now) members.items }
    requires led { AreLed (seats_of members.items) }
    ensures done { HasDone shared.now result }
    ensures numbers { result.seat.view.numbers ≡ all_numbers (seats_of members.items) }
{
    let mut members = members.into_iter();
    let Some(mut first) = members.next() else {
        unreachable!()
    };
    for other in members {
        take_in(shared, &mut first, other);
    }
    first
}

// Takes a member's seat into the first one, and its counts.
fn take_in(shared: &Shared, first: &mut Member, other: Member)
    requires done { HasDone shared.now first.old }
    requires first { first.old.seat.first ≡ true }
    requires theirs { HasDone shared.now other }
    ensures done { HasDone shared.now first.new }
    ensures first { first.new.seat.first ≡ true }
    ensures numbers { first.new.seat.view.numbers ≡ first.old.seat.view.numbers ++ other.seat.view.numbers }
{
    let Member { seat, yes, torn } = other;
    shared.join(&mut first.seat, seat);
    first.yes = first.yes.wrapping_add(yes);
    first.torn = first.torn.wrapping_add(torn);
}

/// The counter is the number of counts answered Yes, no reading was torn, and the board is whole.
pub(crate) fn finish(shared: Shared, member: Member) -> Outcome
    requires done { HasDone shared member }
    requires whole { length member.seat.view.numbers ≡ shared.plan.seats }
    ensures { IsEnding shared.plan result.closed result.yes result.torn }
{
    let Member { seat, yes, torn } = member;
    let closed = shared.close(seat);
    Outcome { closed, yes, torn }
}
