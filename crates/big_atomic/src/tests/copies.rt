//! The inline words that changes leave.
ghost use Rattle.step_rules.specs.SeatData.{IsOf};

use super::{LOAD, opened, plan, play, rec, set, split, swap};
use cache_copy::{Inline, read_inline};
use seat_history::Reply;
use std::process::Abort;
use std::test::Fail;
use step_rules::{NODE_WIDTH, Seat, Shared};

// What a read of the first register's inline words answers.
pub(crate) fn copy_of(rt: &impl Abort, shared: &Shared, seat: &mut Seat) -> Inline
    requires ours { IsOf shared.now seat.old }
    ensures ours { IsOf shared.now seat.new }
{
    assert!(rt; 0 < shared.plan().registers);
    read_inline(shared, seat, 0)
}

// The record of a number as a node's words.
pub(crate) fn node_of(number: u64) -> [u64; NODE_WIDTH] {
    let mut words = [0; NODE_WIDTH];
    words[0] = number;
    words
}

#[test]
fn changes_that_meet_no_other_leave_good_copies(rt: HostRuntime) -> Result<(), Fail> {
    let (shared, mut first) = opened(rt.alloc(), &plan(&rt, 2, 2, 1, 10))?;
    let mut second = split(&rt, rt.alloc(), &shared, &mut first)?;
    let rows = [(set(1), Reply::Done), (swap(1, 2), Reply::Yes)];
    play(&rt, &shared, &mut first, &rows);
    play(&rt, &shared, &mut second, &[(swap(2, 3), Reply::Yes)]);
    let copy = copy_of(&rt, &shared, &mut first);
    assert_eq!(rt; copy, Inline::Words(node_of(3)));
    // So this load makes no claim.
    play(&rt, &shared, &mut second, &[(LOAD, Reply::Words(rec(3)))]);
    Ok(())
}
