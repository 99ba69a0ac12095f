//! Updates that count, by one seat and by the threads of four.
ghost use Rattle.std.specs.Prelude.{◌≡◌};
ghost use Rattle.big_atomic.specs.Ready.{IsReady};
ghost use Rattle.step_rules.specs.SeatData.{IsOf};

use super::threads::Worked;
use super::{get, key, opened, plan, put, val};
use crate::{Insert, KeyWords, Seat, Shared, Update, ValWords, update};
use std::process::Abort;
use std::test::Fail;

/// How often each seat counts.
pub(super) const COUNTS: u64 = 20_000;

// One more than the value that is there, and 1 where there is none.
fn one_more(there: Option<ValWords>) -> ValWords {
    match there {
        None => val(1, 0),
        Some(old) => val(old[0].wrapping_add(1), old[1]),
    }
}

// Counts the key once more.
fn count(rt: &impl Abort, shared: &Shared, seat: &mut Seat, key: KeyWords) -> Update
    requires ready { IsReady shared.now seat.old }
    ensures ready { IsReady shared.now seat.new }
{
    assert!(rt; 0 < seat.changes_left());
    assert!(rt; 0 < shared.plan().buckets);
    update(shared, seat, key, |there| one_more(there))
}

/// Counts one key again and again, beside the other seats.
pub(super) fn count_all(rt: &impl Abort, shared: &Shared, seat: Seat) -> Worked
    requires ready { IsReady shared.now seat }
    ensures ours { IsOf shared.now result.seat }
{
    let mut seat = seat;
    let mut pairs = 0u64;
    for _turn in 0..COUNTS {
        match count(rt, shared, &mut seat, key(1, 2)) {
            Update::Done { there: None } => pairs = pairs.wrapping_add(1),
            Update::Done { there: Some(_) } => {}
            Update::Full { need, free } => panic!(rt; "{need} of {free}"),
        }
    }
    let sum = COUNTS;
    Worked { seat, pairs, sum }
}

#[test]
fn counts_what_is_there(rt: HostRuntime) -> Result<(), Fail> {
    let (shared, mut seat) = opened(rt.alloc(), &plan(&rt, 1, 1, 1, 8))?;
    let it = key(1, 2);
    assert_eq!(rt;
        count(&rt, &shared, &mut seat, it),
        Update::Done { there: None }
    );
    assert_eq!(rt;
        count(&rt, &shared, &mut seat, it),
        Update::Done {
            there: Some(val(1, 0))
        }
    );
    assert_eq!(rt; get(&rt, &shared, &mut seat, it), Some(val(2, 0)));
    assert_eq!(rt;
        put(&rt, &shared, &mut seat, it, val(7, 7)),
        Insert::Present(val(2, 0))
    );
    // Another key beside this one needs two nodes, and one is free.
    assert_eq!(rt;
        count(&rt, &shared, &mut seat, key(3, 3)),
        Update::Full { need: 2, free: 1 }
    );
    Ok(())
}
