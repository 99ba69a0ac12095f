//! Two seats with two nodes each in one bucket.
ghost use Rattle.std.specs.Prelude.{◌≡◌, IfOk};
ghost use Rattle.big_atomic.specs.Ready.{IsReady};
ghost use Rattle.step_rules.specs.SeatData.{IsOf};

use super::{close, get, key, opened, plan, play, val};
use crate::{Insert, Seat, Shared};
use std::alloc::Global;
use std::process::Abort;
use std::test::Fail;

// Cuts a fresh seat in two.
pub(super) fn split(
    rt: &impl Abort,
    alloc: Global,
    shared: &Shared,
    seat: &mut Seat,
) -> Result<Seat, Fail>
    requires ready { IsReady shared.now seat.old }
    ensures ready { IfOk result (λ _. IsReady shared.now seat.new) }
    ensures made { IfOk result (λ made. IsReady shared.now made) }
{
    assert!(rt; seat.fresh());
    assert!(rt; 1 < seat.numbers());
    Ok(shared.split(alloc, seat)?)
}

// Takes a seat into the first one.
fn join(rt: &impl Abort, shared: &Shared, first: &mut Seat, other: Seat)
    requires ours { IsOf shared.now first.old }
    requires theirs { IsOf shared.now other }
    ensures ours { IsOf shared.now first.new }
{
    assert!(rt; first.is_first());
    assert!(rt; first.quiet());
    assert!(rt; other.quiet());
    shared.join(first, other);
}

#[test]
fn two_seats_share_a_bucket(rt: HostRuntime) -> Result<(), Fail> {
    let (shared, mut first) = opened(rt.alloc(), &plan(&rt, 2, 2, 1, 10))?;
    let mut second = split(&rt, rt.alloc(), &shared, &mut first)?;
    let rows = [
        (key(1, 0), val(10, 0), Insert::Done),
        (key(2, 0), val(20, 0), Insert::Done),
    ];
    play(&rt, &shared, &mut first, &rows);
    let rows = [
        (key(3, 0), val(30, 0), Insert::Done),
        (key(4, 0), val(40, 0), Insert::Full { need: 2, free: 1 }),
    ];
    play(&rt, &shared, &mut second, &rows);
    assert_eq!(rt; get(&rt, &shared, &mut second, key(4, 0)), None);
    assert_eq!(rt; get(&rt, &shared, &mut first, key(3, 0)), Some(val(30, 0)));
    join(&rt, &shared, &mut first, second);
    let closed = close(&rt, shared, first);
    assert_eq!(rt; closed.pairs(rt.alloc())?.as_slice().len(), 3);
    let counts = closed.counts();
    assert_eq!(rt; counts.live, 3);
    assert!(rt; counts.free <= 2 && counts.retired <= 2);
    assert_eq!(rt; counts.free + counts.retired, 2);
    Ok(())
}
