//! Readers of one register beside two callers that change it, each in a thread of its own.
ghost use Rattle.std.specs.Prelude.{◌<◌, All, IfOk};
ghost use Rattle.big_atomic.specs.Ready.{IsReady};
ghost use Rattle.big_atomic.specs.Seats.{IsUnused};
ghost use Rattle.step_rules.specs.SeatData.{IsOf};

use super::threads::{Counting, SEATS, joined, loaded};
use super::{LOAD, answer, closes, opened, plan};
use crate::{Seat, Shared, split_all};
use seat_history::{Call, Rec, Reply, WIDTH};
use std::alloc::AllocError;
use std::process::Abort;
use std::test::Fail;
use std::thread::{self, Threads};

/// How often each seat loads the register.
const LOADS: u32 = 20_000;

// The record of a number: each word tells it.
fn spread(number: u64) -> Rec {
    let mut words = [0; WIDTH];
    for (j, word) in words.iter_mut().enumerate() {
        *word = number.wrapping_mul((j as u64).wrapping_add(1));
    }
    words
}

// Where the seat writes, tries once to put the next number's record there, and answers whether it did.
fn put_next(rt: &impl Abort, shared: &Shared, seat: &mut Seat, old: Rec, writes: bool) -> bool
    requires ready { IsReady shared.now seat.old }
    ensures ready { IsReady shared.now seat.new }
{
    if !writes {
        return false;
    }
    let new = spread(old[0].wrapping_add(1));
    match answer(rt, shared, seat, Call::Swap { reg: 0, old, new }) {
        Reply::Yes => true,
        Reply::No => false,
        reply => panic!(rt; "a swap has {reply:?}"),
    }
}

// Loads again and again: each record was written, and none is older than the one before. Every other seat
// writes between its loads.
fn watch(rt: &impl Abort, shared: &Shared, seat: Seat) -> Counting
    requires ready { IsReady shared.now seat }
    ensures ours { IsOf shared.now result.seat }
{
    let mut seat = seat;
    let writes = seat.number() % 2 == 0;
    let mut newest = 0u64;
    let mut yes = 0u64;
    for _ in 0..LOADS {
        let words = loaded(rt, shared, &mut seat, LOAD);
        assert_eq!(rt; words, spread(words[0]));
        assert!(rt; newest <= words[0]);
        newest = words[0];
        if put_next(rt, shared, &mut seat, words, writes) {
            yes = yes.wrapping_add(1);
        }
    }
    Counting { seat, yes }
}

fn watch_all<R: Threads + Abort + Sync>(
    rt: &R,
    shared: &Shared,
    seats: Vec<Seat>,
) -> Result<Vec<Counting>, AllocError>
    requires unused { All (IsUnused shared.now) seats.items }
    ensures ours { IfOk result (λ all. All (λ (counting : Counting). IsOf shared.now counting.seat) all.items) }
{
    let work = |seat: Seat| -> Counting
        requires { IsUnused shared.now seat }
        ensures { IsOf shared.entry.now result.seat }
    { watch(rt, shared, seat) };
    thread::map_vec(rt, seats, &work)
}

#[test]
fn readers_see_whole_records_that_never_get_older(rt: HostRuntime) -> Result<(), Fail> {
    let changes = u64::from(LOADS) + 1;
    let (shared, first) = opened(rt.alloc(), &plan(&rt, SEATS, 20, 1, changes))?;
    assert!(rt; first.fresh());
    let seats = split_all(rt.alloc(), &shared, first)?;
    let all = watch_all(&rt, &shared, seats)?;
    let Counting { seat, yes } = joined(&rt, rt.alloc(), &shared, all)?;
    closes(&rt, shared, seat, spread(yes));
    Ok(())
}
