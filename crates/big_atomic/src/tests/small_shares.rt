//! Stores of seats with few nodes beside held records, one of a seat that was dropped.
ghost use Rattle.std.specs.Prelude.{◌≡◌, ◌<◌};
ghost use Rattle.big_atomic.specs.Ready.{IsReady};

use super::{FULL, HOLD, answer, opened, plan, play, rec, set, split};
use seat_history::{Call, Reply};
use std::process::Abort;
use std::test::Fail;
use step_rules::{Seat, Shared};

#[test]
fn two_held_records_keep_two_nodes(rt: HostRuntime) -> Result<(), Fail> {
    let (shared, mut first) = opened(rt.alloc(), &plan(&rt, 2, 2, 2, 10))?;
    let mut second = split(&rt, rt.alloc(), &shared, &mut first)?;
    play(&rt, &shared, &mut second, &[(HOLD, Reply::Done)]);
    let other = Call::Store {
        reg: 1,
        new: rec(1),
    };
    let rows = [
        (Call::Hold { reg: 1 }, Reply::Done),
        (set(1), Reply::Done),
        (other, Reply::Done),
        (set(2), FULL),
    ];
    play(&rt, &shared, &mut first, &rows);
    play(&rt, &shared, &mut second, &[(Call::Release, Reply::Done)]);
    let rows = [(set(2), Reply::Done), (Call::Look, Reply::Words(rec(0)))];
    play(&rt, &shared, &mut first, &rows);
    Ok(())
}

#[test]
fn a_dropped_holder_keeps_the_node_of_a_share_of_one(rt: HostRuntime) -> Result<(), Fail> {
    let (shared, mut first) = opened(rt.alloc(), &plan(&rt, 2, 1, 1, 10))?;
    let mut second = split(&rt, rt.alloc(), &shared, &mut first)?;
    play(&rt, &shared, &mut second, &[(HOLD, Reply::Done)]);
    drop(second);
    let rows = [
        (set(1), Reply::Done),
        (set(2), FULL),
        (set(1), Reply::Done),
        (set(2), FULL),
    ];
    play(&rt, &shared, &mut first, &rows);
    assert_eq!(rt; first.changes_left(), 9);
    Ok(())
}

pub(super) const STORES: u64 = 1_000;

// Stores one number after the other, each time without a loss of nodes.
pub(super) fn store_all(rt: &impl Abort, shared: &Shared, seat: &mut Seat)
    requires ready { IsReady shared.now seat.old }
    ensures ready { IsReady shared.now seat.new }
{
    for number in 1..=STORES {
        assert_eq!(rt; answer(rt, shared, seat, set(number)), Reply::Done);
        let (free, retired) = (seat.free(), seat.retired());
        assert!(rt; free <= 4 && retired <= 4);
        assert_eq!(rt; free + retired, 4);
        assert!(rt; 1 <= retired);
    }
}

#[test]
fn a_dropped_holder_costs_no_more_than_its_node(rt: HostRuntime) -> Result<(), Fail> {
    let (shared, mut first) = opened(rt.alloc(), &plan(&rt, 2, 4, 1, STORES))?;
    let mut second = split(&rt, rt.alloc(), &shared, &mut first)?;
    play(&rt, &shared, &mut second, &[(HOLD, Reply::Done)]);
    drop(second);
    store_all(&rt, &shared, &mut first);
    assert_eq!(rt; first.changes_left(), 0);
    Ok(())
}
