//! Seats that raise the values of their keys, and seats that find them meanwhile.
ghost use Rattle.big_atomic.specs.Ready.{IsReady};
ghost use Rattle.step_rules.specs.SeatData.{IsOf};

use super::threads::Worked;
use super::{exchange, get, key, put, val};
use crate::{Insert, KeyWords, Replace, Seat, Shared, ValWords};
use std::process::Abort;

/// How often the value of each key is raised, and how often it is looked for.
pub(super) const RAISES: u64 = 50_000;

// The key of the seat with this number.
fn key_of(number: u32) -> KeyWords {
    key(u64::from(number), 5)
}

// The value that a key has after so many raises.
fn raised(times: u64) -> ValWords {
    val(times, times.wrapping_mul(3).wrapping_add(7))
}

// Puts the seat's key in, and raises its value.
pub(super) fn raise(rt: &impl Abort, shared: &Shared, seat: Seat) -> Worked
    requires ready { IsReady shared.now seat }
    ensures ours { IsOf shared.now result.seat }
{
    let mut seat = seat;
    let mine = key_of(seat.number());
    assert_eq!(rt; put(rt, shared, &mut seat, mine, raised(0)), Insert::Done);
    for times in 0..RAISES {
        let answer = exchange(
            rt,
            shared,
            &mut seat,
            mine,
            raised(times),
            raised(times + 1),
        );
        assert_eq!(rt; answer, Replace::Yes);
    }
    let (pairs, sum) = (1, RAISES);
    Worked { seat, pairs, sum }
}

// Looks for the keys of the first and the third seat in turn.
pub(super) fn watch(rt: &impl Abort, shared: &Shared, seat: Seat) -> Worked
    requires ready { IsReady shared.now seat }
    ensures ours { IsOf shared.now result.seat }
{
    let mut seat = seat;
    let mut first = 0u64;
    let mut third = 0u64;
    for _turn in 0..RAISES {
        first = look_again(rt, shared, &mut seat, key_of(0), first);
        third = look_again(rt, shared, &mut seat, key_of(2), third);
    }
    let (pairs, sum) = (0, 0);
    Worked { seat, pairs, sum }
}

// Looks for a key that was last found after so many raises: its value is one that was put, and none
// older. Answers after how many it was found now.
fn look_again(rt: &impl Abort, shared: &Shared, seat: &mut Seat, key: KeyWords, last: u64) -> u64
    requires ready { IsReady shared.now seat.old }
    ensures ready { IsReady shared.now seat.new }
{
    let Some(found) = get(rt, shared, seat, key) else {
        assert_eq!(rt; last, 0);
        return 0;
    };
    assert_eq!(rt; found, raised(found[0]));
    assert!(rt; last <= found[0]);
    found[0]
}
