//! Four seats, each in a thread of its own, that put in the same keys and keys of their own, change the
//! same few keys in every way, or find the keys whose values two of them raise.
ghost use Rattle.std.specs.Prelude.{◌≡◌, ◌<◌, true, All, IfOk, length};
ghost use Rattle.big_atomic.specs.Ready.{IsReady};
ghost use Rattle.big_atomic.specs.Seats.{IsUnused};
ghost use Rattle.step_rules.specs.SeatData.{IsOf};

use super::updates::{COUNTS, count_all};
use super::watchers::{RAISES, raise, watch};
use super::{close, exchange, get, key, opened, plan, put, take_out, val};
use crate::{
    Counts, Insert, KeyWords, Plan, Remove, Replace, Seat, Shared, ValWords, join_all, split_all,
};
use hazard_claims::scan;
use std::alloc::{AllocError, Global};
use std::process::Abort;
use std::test::Fail;
use std::thread::{self, Threads};

const SEATS: u32 = 4;

/// How many keys all seats put in, and how many each has for itself.
const KEYS: u64 = 40;

/// How many keys all seats change, and how many turns each makes.
const FEW: u64 = 8;

const TURNS: u64 = 50_000;

/// What the seats do.
#[derive(Clone, Copy, Drop)]
enum Work {
    /// They put pairs in.
    Fill,
    /// They change a few keys in every way.
    Churn,
    /// Two raise the values of their keys, and the others find them.
    Watch,
    /// They count one key.
    Count,
}

/// A seat, how many pairs it put in, less those that it took out, and a sum of values.
#[derive(Drop)]
pub(super) struct Worked {
    pub(super) seat: Seat,
    pub(super) pairs: u64,
    pub(super) sum: u64,
}

// One more value is seen.
fn seen_next(seen: u64, val: ValWords) -> u64 {
    seen.wrapping_mul(31).wrapping_add(val[0])
}

fn put_all(rt: &impl Abort, shared: &Shared, seat: Seat) -> Worked
    requires ready { IsReady shared.now seat }
    ensures ours { IsOf shared.now result.seat }
{
    let mut seat = seat;
    let mut pairs = 0u64;
    let mut sum = 0u64;
    for number in 0..KEYS {
        // The second word of a common key is 0, and that of a seat's own is the seat's number and 1.
        let by = u64::from(seat.number()) + 1;
        let mine = val(by, number);
        let there = match put(rt, shared, &mut seat, key(number, 0), mine) {
            Insert::Done => {
                pairs = pairs.wrapping_add(1);
                mine
            }
            Insert::Present(there) => there,
            Insert::Full { need, free } => panic!(rt; "{need} of {free}"),
        };
        sum = seen_next(sum, there);
        assert_eq!(rt;
            put(rt, shared, &mut seat, key(number, by), mine),
            Insert::Done
        );
        pairs = pairs.wrapping_add(1);
    }
    Worked { seat, pairs, sum }
}

// Looks for each of a few keys in turn, and changes its pair.
fn churn(rt: &impl Abort, shared: &Shared, seat: Seat) -> Worked
    requires ready { IsReady shared.now seat }
    ensures ours { IsOf shared.now result.seat }
{
    let mut seat = seat;
    let mut pairs = 0u64;
    let mut sum = 0u64;
    for turn in 0..TURNS {
        // The keys come in another order for each seat.
        let by = u64::from(seat.number()) + 1;
        let it = key(turn.wrapping_mul(2 * by + 1) % FEW, 7);
        let (more, added) = churn_key(rt, shared, &mut seat, it, by, turn % 3 == 0);
        pairs = pairs.wrapping_add(more);
        sum = sum.wrapping_add(added);
    }
    Worked { seat, pairs, sum }
}

// Puts a key in where it isn't there, else takes it out or adds to its value. Answers how many pairs
// are more, and what was added to values, less what stood in one taken out.
fn churn_key(
    rt: &impl Abort,
    shared: &Shared,
    seat: &mut Seat,
    key: KeyWords,
    by: u64,
    takes: bool,
) -> (u64, u64)
    requires ready { IsReady shared.now seat.old }
    ensures ready { IsReady shared.now seat.new }
{
    let Some(there) = get(rt, shared, seat, key) else {
        return match put(rt, shared, seat, key, val(by, 1)) {
            Insert::Done => (1, by),
            _ => (0, 0),
        };
    };
    if takes {
        return match take_out(rt, shared, seat, key) {
            Remove::Gone(gone) => (0u64.wrapping_sub(1), 0u64.wrapping_sub(gone[0])),
            _ => (0, 0),
        };
    }
    let more = val(there[0].wrapping_add(by), there[1].wrapping_add(1));
    match exchange(rt, shared, seat, key, there, more) {
        Replace::Yes => (0, by),
        _ => (0, 0),
    }
}

// Runs a thread for each seat.
fn run_all<R: Threads + Abort + Sync>(
    rt: &R,
    shared: &Shared,
    seats: Vec<Seat>,
    work: Work,
) -> Result<Vec<Worked>, AllocError>
    requires unused { All (IsUnused shared.now) seats.items }
    ensures ours { IfOk result (λ all. All (λ (worked : Worked). IsOf shared.now worked.seat) all.items) }
{
    let work_one = |seat: Seat| -> Worked
        requires { IsUnused shared.now seat }
        ensures { IsOf shared.entry.now result.seat }
    { work_on(rt, shared, seat, work) };
    thread::map_vec(rt, seats, &work_one)
}

fn work_on(rt: &impl Abort, shared: &Shared, seat: Seat, work: Work) -> Worked
    requires ready { IsReady shared.now seat }
    ensures ours { IsOf shared.now result.seat }
{
    match work {
        Work::Fill => put_all(rt, shared, seat),
        Work::Churn => churn(rt, shared, seat),
        Work::Count => count_all(rt, shared, seat),
        Work::Watch => {
            if seat.number() % 2 == 0 {
                return raise(rt, shared, seat);
            }
            watch(rt, shared, seat)
        }
    }
}

// Joins all seats, and adds up what they have.
fn joined(
    rt: &impl Abort,
    alloc: Global,
    shared: &Shared,
    all: Vec<Worked>,
) -> Result<Worked, AllocError>
    requires ours { All (λ (worked : Worked). IsOf shared.now worked.seat) all.items }
    ensures ours { IfOk result (λ worked. IsOf shared.now worked.seat) }
{
    let mut all = all;
    let mut pairs = 0u64;
    let mut sum = 0u64;
    let mut seats = Vec::new(alloc);
    while let Some(worked) = all.pop() {
        assert!(rt; worked.seat.quiet());
        pairs = pairs.wrapping_add(worked.pairs);
        sum = sum.wrapping_add(worked.sum);
        seats.push(worked.seat)?;
    }
    let Some(mut seat) = seats.pop() else {
        panic!(rt; "no seat is there");
    };
    assert!(rt; seat.is_first());
    join_all(shared, &mut seat, seats);
    Ok(Worked { seat, pairs, sum })
}

// Splits an object's seats, runs a thread for each, and joins them.
fn work_together<R: Threads + Abort + Sync>(
    rt: &R,
    alloc: Global,
    shared: &Shared,
    first: Seat,
    work: Work,
) -> Result<Worked, Fail>
    requires ready { IsReady shared.now first }
    ensures ours { IfOk result (λ worked. IsOf shared.now worked.seat) }
{
    assert!(rt; first.fresh());
    let seats = split_all(alloc, shared, first)?;
    let all = run_all(rt, shared, seats, work)?;
    Ok(joined(rt, alloc, shared, all)?)
}

// Puts pairs in by four threads, on so many buckets.
fn put_together<R: Threads + Abort + Sync>(
    rt: &R,
    alloc: Global,
    buckets: u32,
) -> Result<(), Fail> {
    let (shared, first) = opened(alloc, &plan(rt, SEATS, 200, buckets, 1_000))?;
    let Worked { seat, pairs, sum } = work_together(rt, alloc, &shared, first, Work::Fill)?;
    let closed = close(rt, shared, seat);
    let list = closed.pairs(alloc)?;
    // Each pair was put in once, and the values are those that each thread saw.
    assert_eq!(rt; list.as_slice().len(), 5 * KEYS as usize);
    assert_eq!(rt; pairs, 5 * KEYS);
    let mut last = 0u64;
    for (key, val) in list.as_slice() {
        if key.k1 == 0 {
            last = seen_next(last, *val);
        } else {
            assert_eq!(rt; *val, super::val(key.k1, key.k0));
        }
    }
    assert_eq!(rt; last.wrapping_mul(4), sum);
    Ok(())
}

#[test]
fn four_threads_fill_one_bucket(rt: HostRuntime) -> Result<(), Fail> {
    put_together(&rt, rt.alloc(), 1)
}

#[test]
fn four_threads_fill_64_buckets(rt: HostRuntime) -> Result<(), Fail> {
    put_together(&rt, rt.alloc(), 64)
}

#[test]
fn four_threads_change_eight_keys(rt: HostRuntime) -> Result<(), Fail> {
    let changes = 2 * TURNS;
    let few = plan(&rt, SEATS, 6, 2, changes);
    let (shared, first) = opened(
        rt.alloc(),
        &Plan {
            removes: 20_000,
            ..few
        },
    )?;
    let Worked { seat, pairs, sum } = work_together(&rt, rt.alloc(), &shared, first, Work::Churn)?;
    let mut seat = seat;
    scan(&shared, &mut seat);
    let closed = close(&rt, shared, seat);
    let list = closed.pairs(rt.alloc())?;
    // What was added to values stands in those left, or was taken out with its pair.
    assert_eq!(rt; list.as_slice().len() as u64, pairs);
    let mut left = 0u64;
    for (_, val) in list.as_slice() {
        left = left.wrapping_add(val[0]);
    }
    assert_eq!(rt; left, sum);
    let Counts {
        free,
        live,
        retired,
    } = closed.counts();
    assert_eq!(rt; retired, 0);
    assert_eq!(rt; u64::from(free) + u64::from(live), 26);
    Ok(())
}

#[test]
fn four_threads_count_one_key(rt: HostRuntime) -> Result<(), Fail> {
    let (shared, first) = opened(rt.alloc(), &plan(&rt, SEATS, 20, 1, COUNTS))?;
    let Worked { seat, pairs, sum } = work_together(&rt, rt.alloc(), &shared, first, Work::Count)?;
    let closed = close(&rt, shared, seat);
    let list = closed.pairs(rt.alloc())?;
    // One found the key absent, and no count is lost.
    assert_eq!(rt; pairs, 1);
    assert_eq!(rt; list.as_slice(), [(key(1, 2), val(sum, 0))].as_slice());
    Ok(())
}

#[test]
fn two_threads_find_what_two_raise(rt: HostRuntime) -> Result<(), Fail> {
    let (shared, first) = opened(rt.alloc(), &plan(&rt, SEATS, 40, 1, RAISES + 1))?;
    let Worked { seat, .. } = work_together(&rt, rt.alloc(), &shared, first, Work::Watch)?;
    let closed = close(&rt, shared, seat);
    let list = closed.pairs(rt.alloc())?;
    assert_eq!(rt; list.as_slice().len(), 2);
    for (_, val) in list.as_slice() {
        assert_eq!(rt; val[0], RAISES);
    }
    Ok(())
}
