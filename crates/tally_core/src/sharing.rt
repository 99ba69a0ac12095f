//! A tally's batches: a place at them for each worker, and at the end all places in one.
ghost use Rattle.std.specs.Prelude.{◌≡◌, ◌++◌, ◌<◌, ◌≤◌, ◌^◌, All, IfOk, false, length, true, ℕ};
ghost use Rattle.tally_core.specs.Drawing.{HasNoDraw, IsUndrawn, TellsDrawn, any_ended, batches_told, draws_told, drawn_by};
ghost use Rattle.tally_core.specs.Draws.{batches_of};
ghost use Rattle.tally_core.specs.Tallying.{IsFullAt, full_at};
ghost use Rattle.tally_core.specs.Workers.{seats_of};
ghost use Rattle.worker_gate.specs.Numbers.{EachOnce};
ghost use Rattle.worker_gate.specs.Seats.{BatchesData, IsBatchOf, IsBatchSeat};

use crate::draws::{BATCH, Draw, DrawList};
use crate::worker::{Drawer, Part, Worker};
use big_atomic::{NoMemory, Seat};
use std::alloc::{AllocError, Global};
use worker_gate::{BatchSeat, Batches};

/// The batches of so many pairs, and a worker for each of these seats, with room for its draws.
pub(crate) fn share_batches(
    alloc: Global,
    pairs: usize,
    seats: Vec<Seat>,
) -> Result<(Batches, Vec<Drawer>), NoMemory>
    requires few { pairs ≤ 2 ^ 23 }
    requires workers { (0 < length seats.items) × (length seats.items ≤ 64) }
    ensures count { IfOk result (λ made. made.0.plan.count ≡ batches_of pairs) }
    ensures workers { IfOk result (λ made. made.0.plan.seats ≡ length seats.items) }
    ensures seats { IfOk result (λ made. seats_of made.1.items ≡ seats.items) }
    ensures no_draw { IfOk result (λ made. All (HasNoDraw made.0) made.1.items) }
{
    let workers = seats.len() as u32;
    let count = ((pairs + (BATCH - 1)) / BATCH) as u32;
    let (batches, seat) = Batches::new(alloc, count, workers)?;
    let places = split_places(alloc, &batches, seat, workers)?;
    let drawers = seat_drawers(alloc, seats, places, count)?;
    Ok((batches, drawers))
}

// Splits a seat at the batches into one for each of its numbers.
fn split_places(
    alloc: Global,
    batches: &Batches,
    seat: BatchSeat,
    workers: u32,
) -> Result<Vec<BatchSeat>, AllocError>
    requires ours { IsBatchOf batches.now seat }
    requires law { IsBatchSeat seat }
    requires fresh { seat.view.fresh ≡ true }
    requires workers { (length seat.view.numbers ≡ workers) × (0 < workers) }
    ensures count { IfOk result (λ places. length places.items ≡ workers) }
    ensures undrawn { IfOk result (λ places. All (IsUndrawn batches.now) places.items) }
{
    let mut first = seat;
    let mut places = Vec::with_capacity(alloc, workers as usize)?;
    for _place in 1..workers {
        let place = batches.split(&mut first);
        places.push(place)?;
    }
    places.push(first)?;
    Ok(places)
}

// A worker for each seat, with a place at the batches and room for so many draws.
fn seat_drawers(
    alloc: Global,
    seats: Vec<Seat>,
    places: Vec<BatchSeat>,
    count: u32,
) -> Result<Vec<Drawer>, NoMemory>
    requires places { length places.items ≡ length seats.items }
    ensures seats { IfOk result (λ drawers. seats_of drawers.items ≡ seats.items) }
    ensures no_draw { IfOk result (λ drawers. (batches : BatchesData) → All (IsUndrawn batches) places.items → batches.plan.count ≡ count
        → All (HasNoDraw batches) drawers.items) }
{
    let mut places = places;
    let mut drawers = Vec::with_capacity(alloc, seats.len())?;
    for seat in seats {
        let Some(batches) = places.pop() else {
            unreachable!()
        };
        let drawn = Vec::with_capacity(alloc, count as usize)?;
        let told = Part {
            batches,
            drawn,
            full: false,
        };
        drawers.push(Worker { seat, told })?;
    }
    Ok(drawers)
}

/// Whether a call of any of these workers was answered Full.
pub(crate) fn is_any_full(drawers: &[Drawer]) -> bool
    ensures some { result ≡ true → (w : ℕ) × IsFullAt drawers.now w }
    ensures none { result ≡ false → (w : ℕ) → full_at drawers.now w ≡ false }
{
    for i in 0..drawers.len() {
        if drawers[i].told.full {
            return true;
        }
    }
    false
}

/// The draws of these workers, one worker's after the other's, and each worker's in its order.
pub(crate) fn draws_of(alloc: Global, drawers: &[Drawer]) -> Result<DrawList, AllocError>
    ensures { IfOk result (λ draws. draws ≡ draws_told drawers.now) }
{
    let mut draws = Vec::new(alloc);
    for drawer in drawers {
        push_draws(&mut draws, drawer.seat.number(), &drawer.told.drawn)?;
    }
    Ok(DrawList::of_vec(draws))
}

// Puts a worker's draws at the end.
fn push_draws(draws: &mut Vec<Draw>, worker: u32, drawn: &[u32]) -> Result<(), AllocError>
    ensures { IfOk result (λ _. draws.new.items ≡ draws.old.items ++ drawn_by worker drawn.now) }
{
    for batch in drawn {
        draws.push(Draw {
            worker,
            batch: *batch,
        })?;
    }
    Ok(())
}

/// Takes all workers' places at the batches into the first one's: once one of them was told that none is
/// left, each batch was drawn once. The workers keep their seats.
pub(crate) fn join_places(
    alloc: Global,
    batches: &Batches,
    drawers: Vec<Drawer>,
) -> Result<Vec<Worker<()>>, AllocError>
    requires some { 0 < length drawers.items }
    requires each { All (TellsDrawn batches.now) drawers.items }
    ensures seats { IfOk result (λ workers. seats_of workers.items ≡ seats_of drawers.items) }
    ensures once { IfOk result (λ _. any_ended drawers.items ≡ true → length drawers.items ≡ batches.now.plan.seats
        → EachOnce batches.now.plan.count (batches_told drawers.items)) }
{
    let mut workers = Vec::with_capacity(alloc, drawers.len())?;
    let mut drawers = drawers.into_iter();
    let Some(first) = drawers.next() else {
        unreachable!()
    };
    let Worker { seat, told } = first;
    workers.push(Worker { seat, told: () })?;
    let mut all = told.batches;
    for drawer in drawers {
        let Worker { seat, told } = drawer;
        batches.join(&mut all, told.batches);
        workers.push(Worker { seat, told: () })?;
    }
    Ok(workers)
}
