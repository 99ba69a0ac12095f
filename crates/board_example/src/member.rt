//! What one caller does, in its own thread.
ghost use Rattle.std.specs.Prelude.{◌≡◌, ◌≢◌, ◌+◌, ◌%◌, ◌^◌, ◌<◌, ◌≤◌, cond};
ghost use Rattle.big_atomic.specs.Seats.{IsUnused, Stays};
ghost use Rattle.big_atomic.specs.Stands.{HasSeenMore};
ghost use Rattle.board_example.specs.Rules.{HasDone, Works};

use crate::reading::{reading, whole};
use big_atomic::{Seat, Shared, Swap, compare_and_swap, hold, load, look, release_hold, store};

/// A caller's seat, how many of its swaps were Yes, and how many of its readings were not whole.
#[derive(Drop)]
pub(crate) struct Member {
    pub(crate) seat: Seat,
    pub(crate) yes: u64,
    pub(crate) torn: u64,
}

// Counts one more where it is so.
fn more(count: u64, one: bool) -> u64
    ensures { result ≡ (count + cond one 1 0) % 2 ^ 64 }
{
    count.wrapping_add(u64::from(one))
}

// Publishes the reading of this round, where a change is left.
fn publish(shared: &Shared, member: &mut Member, reg: u32, round: u32)
    requires works { Works shared.now member.old }
    requires there { reg < shared.now.plan.registers }
    requires board { reg ≢ 0 }
    ensures works { Works shared.now member.new }
    ensures stays { Stays member.old.seat member.new.seat }
{
    if member.seat.changes_left() == 0 {
        return;
    }
    let words = reading(member.seat.number(), round);
    store(shared, &mut member.seat, reg, words);
}

// Reads a register of the board.
fn read(shared: &Shared, member: &mut Member, reg: u32)
    requires works { Works shared.now member.old }
    requires there { reg < shared.now.plan.registers }
    requires board { reg ≢ 0 }
    ensures works { Works shared.now member.new }
    ensures stays { Stays member.old.seat member.new.seat }
{
    let words = load(shared, &mut member.seat, reg);
    member.torn = more(member.torn, !whole(&words));
}

// Holds a record of the board, looks at it, and lets it go.
fn hold_one(shared: &Shared, member: &mut Member, reg: u32)
    requires works { Works shared.now member.old }
    requires there { reg < shared.now.plan.registers }
    requires board { reg ≢ 0 }
    ensures works { Works shared.now member.new }
    ensures stays { Stays member.old.seat member.new.seat }
{
    hold(shared, &mut member.seat, reg);
    let words = look(shared, &mut member.seat);
    member.torn = more(member.torn, !whole(&words));
    release_hold(shared, &mut member.seat);
}

// Tries once to count up. Where the answer is No, the seat has seen more of the history than before.
fn count_once(shared: &Shared, member: &mut Member) -> Swap
    requires works { Works shared.now member.old }
    requires there { 0 < shared.now.plan.registers }
    requires left { 0 < member.old.seat.view.changes }
    ensures works { Works shared.now member.new }
    ensures stays { Stays member.old.seat member.new.seat }
    ensures missed { result ≡ Swap.No → HasSeenMore shared.now member.old.seat member.new.seat }
{
    let old = load(shared, &mut member.seat, 0);
    let mut new = old;
    new[0] = old[0].wrapping_add(1);
    let answer = compare_and_swap(shared, &mut member.seat, 0, old, new);
    member.yes = more(member.yes, answer.is_yes());
    answer
}

// Tries until the count is made, or no change or node is left for it. It ends, since each try that is
// missed has another caller's change, and the plan allows so many.
fn count_up(shared: &Shared, member: &mut Member)
    requires works { Works shared.now member.old }
    requires there { 0 < shared.now.plan.registers }
    ensures works { Works shared.now member.new }
    ensures stays { Stays member.old.seat member.new.seat }
{
    'tries: while member.seat.changes_left() != 0 {
        match count_once(shared, member) {
            Swap::No => {}
            _ => return,
        }
    }
}

/// Publishes, reads the register of the next caller and counts, as often as there are rounds. The
/// caller with the number 0 holds what it reads.
pub(crate) fn take_part(shared: &Shared, seat: Seat, rounds: u32) -> Member
    requires unused { IsUnused shared.now seat }
    requires board { 2 ≤ shared.now.plan.registers }
    ensures done { HasDone shared.now result }
    ensures stays { Stays seat result.seat }
{
    let mut member = Member {
        seat,
        yes: 0,
        torn: 0,
    };
    let registers = shared.plan().registers;
    let number = member.seat.number();
    let own = 1 + number % (registers - 1);
    let next = 1 + own % (registers - 1);
    for round in 0..rounds {
        publish(shared, &mut member, own, round);
        if number == 0 {
            hold_one(shared, &mut member, next);
        } else {
            read(shared, &mut member, next);
        }
        count_up(shared, &mut member);
    }
    member
}
