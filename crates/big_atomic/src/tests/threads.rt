//! Four seats, each in a thread of its own.
ghost use Rattle.std.specs.Prelude.{◌≡◌, ◌<◌, true, All, IfOk, length};
ghost use Rattle.big_atomic.specs.Ready.{IsReady};
ghost use Rattle.big_atomic.specs.Seats.{IsUnused};
ghost use Rattle.step_rules.specs.SeatData.{IsOf};

use super::{answer, closes, opened, plan, rec};
use crate::{Seat, Shared, join_all, split_all};
use seat_history::{Call, Rec, Reply};
use std::alloc::{AllocError, Global};
use std::process::Abort;
use std::test::Fail;
use std::thread::{self, Threads};

pub(super) const SEATS: u32 = 4;

/// How often each seat tries to count the first register up.
const TRIES: u32 = 500;

/// A seat, and how often it counted.
#[derive(Drop)]
pub(super) struct Counting {
    pub(super) seat: Seat,
    pub(super) yes: u64,
}

// A load.
pub(super) fn loaded(rt: &impl Abort, shared: &Shared, seat: &mut Seat, call: Call) -> Rec
    requires ready { IsReady shared.now seat.old }
    ensures ready { IsReady shared.now seat.new }
{
    match answer(rt, shared, seat, call) {
        Reply::Words(words) => words,
        reply => panic!(rt; "{call:?} has {reply:?}"),
    }
}

// A held record stays while the register changes.
fn held(rt: &impl Abort, shared: &Shared, seat: &mut Seat, number: u64)
    requires ready { IsReady shared.now seat.old }
    ensures ready { IsReady shared.now seat.new }
{
    let call = Call::Store {
        reg: 1,
        new: rec(number),
    };
    assert_eq!(rt;
        answer(rt, shared, seat, Call::Hold { reg: 1 }),
        Reply::Done
    );
    let words = loaded(rt, shared, seat, Call::Look);
    assert_eq!(rt; answer(rt, shared, seat, call), Reply::Done);
    assert_eq!(rt; loaded(rt, shared, seat, Call::Look), words);
    assert_eq!(rt; answer(rt, shared, seat, Call::Release), Reply::Done);
}

// Tries once to count the first register up, and answers whether it did.
fn counted(rt: &impl Abort, shared: &Shared, seat: &mut Seat) -> bool
    requires ready { IsReady shared.now seat.old }
    ensures ready { IsReady shared.now seat.new }
{
    let old = loaded(rt, shared, seat, Call::Load { reg: 0 });
    let mut new = old;
    new[0] = new[0].wrapping_add(1);
    match answer(rt, shared, seat, Call::Swap { reg: 0, old, new }) {
        Reply::Yes => true,
        Reply::No => false,
        reply => panic!(rt; "a swap has {reply:?}"),
    }
}

fn count_up(rt: &impl Abort, shared: &Shared, seat: Seat) -> Counting
    requires ready { IsReady shared.now seat }
    ensures ours { IsOf shared.now result.seat }
{
    let mut seat = seat;
    let mut yes = 0u64;
    for i in 0..TRIES {
        held(rt, shared, &mut seat, u64::from(i));
        if counted(rt, shared, &mut seat) {
            yes = yes.wrapping_add(1);
        }
    }
    Counting { seat, yes }
}

fn count_all<R: Threads + Abort + Sync>(
    rt: &R,
    shared: &Shared,
    seats: Vec<Seat>,
) -> Result<Vec<Counting>, AllocError>
    requires unused { All (IsUnused shared.now) seats.items }
    ensures ours { IfOk result (λ all. All (λ (counting : Counting). IsOf shared.now counting.seat) all.items) }
{
    let work = |seat: Seat| -> Counting
        requires { IsUnused shared.now seat }
        ensures { IsOf shared.entry.now result.seat }
    { count_up(rt, shared, seat) };
    thread::map_vec(rt, seats, &work)
}

// Joins all seats, and adds up how often they counted.
pub(super) fn joined(
    rt: &impl Abort,
    alloc: Global,
    shared: &Shared,
    all: Vec<Counting>,
) -> Result<Counting, AllocError>
    requires ours { All (λ (counting : Counting). IsOf shared.now counting.seat) all.items }
    ensures ours { IfOk result (λ counting. IsOf shared.now counting.seat) }
{
    let mut all = all;
    let mut yes = 0u64;
    let mut seats = Vec::new(alloc);
    while let Some(counting) = all.pop() {
        assert!(rt; counting.seat.quiet());
        yes = yes.wrapping_add(counting.yes);
        seats.push(counting.seat)?;
    }
    let Some(mut seat) = seats.pop() else {
        panic!(rt; "no seat is there");
    };
    assert!(rt; seat.is_first());
    join_all(shared, &mut seat, seats);
    Ok(Counting { seat, yes })
}

#[test]
fn four_threads_count_together(rt: HostRuntime) -> Result<(), Fail> {
    let (shared, first) = opened(rt.alloc(), &plan(&rt, SEATS, 20, 2, 1_000))?;
    assert!(rt; first.fresh());
    let seats = split_all(rt.alloc(), &shared, first)?;
    assert_eq!(rt; seats.len(), SEATS as usize);
    let all = count_all(&rt, &shared, seats)?;
    let Counting { seat, yes } = joined(&rt, rt.alloc(), &shared, all)?;
    // A try that fails has another thread's change in it: as many succeed as one thread makes.
    assert!(rt; yes >= u64::from(TRIES));
    closes(&rt, shared, seat, rec(yes));
    Ok(())
}
