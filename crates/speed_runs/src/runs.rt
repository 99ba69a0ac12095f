//! Threads that call one object, and what the closed object holds.
ghost use Rattle.std.specs.Prelude.{◌≡◌, ◌+◌, ◌*◌, ◌++◌, All, IfOk, IfSome, true};
ghost use Rattle.big_atomic.specs.Seats.{AreBack, AreLed, IsUnused, Stays, all_numbers};
ghost use Rattle.speed_runs.specs.Runs.{HasCome, HasRun, IsEnding, seats_of};
ghost use Rattle.step_rules.specs.Views.{count_up};

use crate::ran::Ran;
use crate::work::Work;
use big_atomic::{Closed, Seat, Shared, build, split_all};
use std::alloc::{AllocError, Global};
use std::thread::Threads;
use std::time::{Clock, Duration, Instant};
use std::{io, thread};

/// The closed object, and how many calls stand: those that filled it, the timed ones, those of both that
/// were made, and those that changed it.
#[derive(Drop)]
pub struct Outcome {
    pub closed: Closed,
    pub filled: u64,
    pub calls: u64,
    pub done: u64,
    pub changes: u64,
}

/// All seats make their calls, and the object is closed. Besides, the time of the timed calls alone.
/// None where memory has no room for the object, or the plan has too many nodes.
pub fn run<R: Threads + Clock + Sync, W: Work + Sync>(
    rt: &R,
    alloc: Global,
    work: &W,
) -> io::Result<Option<(Outcome, Duration)>>
    ensures { IfOk result (λ told. IfSome told (λ ended.
        IsEnding (W.is_turn work.now) W.is_made (W.plan work.now) (W.filling work.now) (W.calls work.now)
        ended.0.closed ended.0.filled ended.0.calls ended.0.done ended.0.changes)) }
{
    let plan = work.plan();
    let Ok((shared, seat)) = build(alloc, &plan) else {
        return Ok(None);
    };
    let Ok(seats) = split_all(alloc, &shared, seat) else {
        return Ok(None);
    };
    let filled = fill_all(rt, &shared, seats, work)?;
    let start = Instant::now(rt)?;
    let all = make_all(rt, &shared, filled, work)?;
    let took = start.elapsed(rt)?;
    let ran = join(&shared, all, work);
    Ok(Some((finish(shared, ran, work), took)))
}

// Makes the first calls of each seat in a thread of its own.
fn fill_all<R: Threads + Sync, W: Work + Sync>(
    rt: &R,
    shared: &Shared,
    seats: Vec<Seat>,
    work: &W,
) -> Result<Vec<Ran>, AllocError>
    requires plan { shared.now.plan ≡ W.plan work.now }
    requires unused { All (IsUnused shared.now) seats.items }
    ensures come { IfOk result (λ all. All (λ one. HasCome (W.is_turn work.now) W.is_made shared.now (W.filling work.now) one.seat one.done) all.items) }
    ensures back { IfOk result (λ all. AreBack seats.items (seats_of all.items)) }
{
    let job = |seat: Seat| -> Ran
        requires plan { shared.now.plan ≡ W.plan work.now }
        requires unused { IsUnused shared.now seat }
        ensures come { HasCome (W.is_turn work.entry.now) W.is_made shared.entry.now (W.filling work.entry.now) result.seat result.done }
        ensures stays { Stays seat result.seat }
    { fill(shared, seat, work) };
    thread::map_vec(rt, seats, &job)
}

// Makes the first calls of one seat.
fn fill<W: Work>(shared: &Shared, seat: Seat, work: &W) -> Ran
    requires plan { shared.now.plan ≡ W.plan work.now }
    requires unused { IsUnused shared.now seat }
    ensures come { HasCome (W.is_turn work.now) W.is_made shared.now (W.filling work.now) result.seat result.done }
    ensures stays { Stays seat result.seat }
{
    work.fill(shared, Ran { seat, done: 0 })
}

// Makes the timed calls of each seat in a thread of its own.
fn make_all<R: Threads + Sync, W: Work + Sync>(
    rt: &R,
    shared: &Shared,
    filled: Vec<Ran>,
    work: &W,
) -> Result<Vec<Ran>, AllocError>
    requires plan { shared.now.plan ≡ W.plan work.now }
    requires come { All (λ one. HasCome (W.is_turn work.now) W.is_made shared.now (W.filling work.now) one.seat one.done) filled.items }
    ensures ran { IfOk result (λ all. All (λ one. HasRun (W.is_turn work.now) W.is_made (W.filling work.now + W.calls work.now) shared.now one.seat one.done) all.items) }
    ensures back { IfOk result (λ all. AreBack (seats_of filled.items) (seats_of all.items)) }
{
    let job = |ran: Ran| -> Ran
        requires plan { shared.now.plan ≡ W.plan work.now }
        requires come { HasCome (W.is_turn work.now) W.is_made shared.now (W.filling work.now) ran.seat ran.done }
        ensures ran { HasRun (W.is_turn work.entry.now) W.is_made (W.filling work.entry.now + W.calls work.entry.now) shared.entry.now result.seat result.done }
        ensures stays { Stays ran.seat result.seat }
    { make_calls(shared, ran, work) };
    thread::map_vec(rt, filled, &job)
}

// Makes the timed calls of one seat.
fn make_calls<W: Work>(shared: &Shared, ran: Ran, work: &W) -> Ran
    requires plan { shared.now.plan ≡ W.plan work.now }
    requires come { HasCome (W.is_turn work.now) W.is_made shared.now (W.filling work.now) ran.seat ran.done }
    ensures ran { HasRun (W.is_turn work.now) W.is_made (W.filling work.now + W.calls work.now) shared.now result.seat result.done }
    ensures stays { Stays ran.seat result.seat }
{
    work.make_calls(shared, ran)
}

// Joins all seats into the first one, and adds up their calls.
fn join<W: Work>(shared: &Shared, all: Vec<Ran>, work: &W) -> Ran
    requires ran { All (λ one. HasRun (W.is_turn work.now) W.is_made (W.filling work.now + W.calls work.now) shared.now one.seat one.done) all.items }
    requires led { AreLed (seats_of all.items) }
    ensures ran { HasRun (W.is_turn work.now) W.is_made (W.filling work.now + W.calls work.now) shared.now result.seat result.done }
    ensures numbers { result.seat.view.numbers ≡ all_numbers (seats_of all.items) }
{
    let mut all = all.into_iter();
    let Some(mut first) = all.next() else {
        unreachable!()
    };
    for other in all {
        take_in(shared, &mut first, other, work);
    }
    first
}

// Takes a seat into the first one, and its calls.
fn take_in<W: Work>(shared: &Shared, first: &mut Ran, other: Ran, work: &W)
    requires ran { HasRun (W.is_turn work.now) W.is_made (W.filling work.now + W.calls work.now) shared.now first.old.seat first.old.done }
    requires first { first.old.seat.first ≡ true }
    requires theirs { HasRun (W.is_turn work.now) W.is_made (W.filling work.now + W.calls work.now) shared.now other.seat other.done }
    ensures ran { HasRun (W.is_turn work.now) W.is_made (W.filling work.now + W.calls work.now) shared.now first.new.seat first.new.done }
    ensures first { first.new.seat.first ≡ true }
    ensures numbers { first.new.seat.view.numbers ≡ first.old.seat.view.numbers ++ other.seat.view.numbers }
{
    let Ran { seat, done } = other;
    shared.join(&mut first.seat, seat);
    first.done = first.done.wrapping_add(done);
}

// Closes the object with the seat that has all numbers.
fn finish<W: Work>(shared: Shared, ran: Ran, work: &W) -> Outcome
    requires plan { shared.plan ≡ W.plan work.now }
    requires ran { HasRun (W.is_turn work.now) W.is_made (W.filling work.now + W.calls work.now) shared ran.seat ran.done }
    requires whole { ran.seat.view.numbers ≡ count_up 0 (W.plan work.now).seats }
    ensures { IsEnding (W.is_turn work.now) W.is_made (W.plan work.now) (W.filling work.now) (W.calls work.now)
        result.closed result.filled result.calls result.done result.changes }
{
    let Ran { seat, done } = ran;
    let plan = work.plan();
    let filled = of_all(work.filling(), plan.seats);
    let calls = of_all(work.calls(), plan.seats);
    let changes = plan.changes * u64::from(plan.seats) - seat.changes_left();
    let closed = shared.close(seat);
    Outcome {
        closed,
        filled,
        calls,
        done,
        changes,
    }
}

// How many calls those of all seats are.
fn of_all(calls: u32, seats: u32) -> u64
    ensures { result ≡ calls * seats }
{
    u64::from(calls) * u64::from(seats)
}
