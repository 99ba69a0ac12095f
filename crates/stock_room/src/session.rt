//! The whole session: the items are put in, workers reserve of them, and the closed table tells what is left.
ghost use Rattle.std.specs.Prelude.{◌≡◌, ◌<◌, ◌≤◌, [], All, IfOk, IfSome, length, map};
ghost use Rattle.big_atomic.specs.Seats.{AreBack, IsUnused, Stays};
ghost use Rattle.cache_hash.specs.Room.{HasRoom};
ghost use Rattle.step_rules.specs.Layout.{IsPlan};
ghost use Rattle.stock_room.specs.Stock.{AreKept, HasStocked};

use crate::orders::{Lot, put_all, reserve_all};
use cache_hash::{Plan, Seat, Shared, build, join_all, split_all};
use seat_history::PairList;
use std::alloc::{AllocError, Global};
use std::thread;
use std::thread::Threads;

/// The items with their stock, the orders and how many of them a worker takes, and the table's plan.
#[derive(Drop)]
pub(crate) struct Asked {
    plan: Plan,
    items: Vec<Lot>,
    orders: Vec<Lot>,
    part: usize,
    ghost fits: { IsPlan plan },
    ghost some: { 0 < plan.buckets },
    ghost room: { HasRoom plan },
    ghost few: { length items.items ≤ plan.changes },
    ghost parts: { (0 < part) × (part ≤ plan.changes) },
}

impl Asked {
    /// None where a number is out of its range. One seat puts the items in, and each worker has one.
    pub(crate) fn of(workers: u64, buckets: u64, items: Vec<Lot>, orders: Vec<Lot>) -> Option<Asked>
        ensures { IfSome result (λ asked. (asked.items ≡ items) × (asked.orders ≡ orders)) }
    {
        let most = 1 << 20;
        if workers == 0 || workers > 63 || buckets == 0 || buckets > most {
            return None;
        }
        let part = orders.len() / workers as usize + 1;
        let changes = part.max(items.len()) as u64;
        if changes > most {
            return None;
        }
        let seats = workers + 1;
        let share = changes + 4 * seats + seats * changes + 2;
        if share > 1 << 22 {
            return None;
        }
        let plan = Plan {
            seats: seats as u32,
            share: share as u32,
            registers: 0,
            buckets: buckets as u32,
            changes,
            removes: 0,
        };
        Some(Asked {
            plan,
            items,
            orders,
            part,
        })
    }
}

/// Puts the items in, works through the orders, and lists the items by rising key: each is there, and
/// what is left of it and what is reserved come to its stock, whatever order the threads' steps came
/// in. None where an item is listed twice, or memory has no room for the table or the list.
pub(crate) fn run<R: Threads + Sync>(
    rt: &R,
    alloc: Global,
    asked: &Asked,
) -> Result<Option<PairList>, AllocError>
    ensures { IfOk result (λ told. IfSome told (λ pairs. AreKept asked.now.items.items pairs)) }
{
    let Ok((shared, seat)) = build(alloc, &asked.plan) else {
        return Ok(None);
    };
    let Ok(mut seats) = split_all(alloc, &shared, seat) else {
        return Ok(None);
    };
    let first = seats.remove(0);
    let Some(mut keeper) = put_all(&shared, first, &asked.items) else {
        return Ok(None);
    };
    let workers = reserve_in_threads(rt, alloc, &shared, seats, &asked.orders, asked.part)?;
    join_all(&shared, &mut keeper, workers);
    let closed = shared.close(keeper);
    let Ok(pairs) = closed.pairs(alloc) else {
        return Ok(None);
    };
    Ok(Some(pairs))
}

// Has each worker go through its part of the orders in a thread of its own.
fn reserve_in_threads<R: Threads + Sync>(
    rt: &R,
    alloc: Global,
    shared: &Shared,
    seats: Vec<Seat>,
    orders: &[Lot],
    part: usize,
) -> Result<Vec<Seat>, AllocError>
    requires some { 0 < shared.now.plan.buckets }
    requires room { HasRoom shared.now.plan }
    requires parts { (0 < part) × (part ≤ shared.now.plan.changes) }
    requires unused { All (IsUnused shared.now) seats.items }
    ensures stocked { IfOk result (λ back. All (HasStocked shared.now []) back.items) }
    ensures back { IfOk result (λ back. AreBack seats.items back.items) }
{
    let jobs = number_seats(alloc, seats)?;
    let work = |job: (Seat, usize)| -> Seat
        requires some { 0 < shared.now.plan.buckets }
        requires room { HasRoom shared.now.plan }
        requires parts { (0 < part) × (part ≤ shared.now.plan.changes) }
        requires unused { IsUnused shared.now job.0 }
        ensures stocked { HasStocked shared.entry.now [] result }
        ensures stays { Stays job.0 result }
    { reserve_all(shared, job.0, orders.chunks(part).nth(job.1).unwrap_or(&[])) };
    thread::map_vec(rt, jobs, &work)
}

// The seats with numbers from 0 on.
fn number_seats(alloc: Global, seats: Vec<Seat>) -> Result<Vec<(Seat, usize)>, AllocError>
    ensures { IfOk result (λ jobs. map (λ job. job.0) jobs.items ≡ seats.items) }
{
    let mut jobs = Vec::new(alloc);
    for seat in seats {
        let number = jobs.len();
        jobs.push((seat, number))?;
    }
    Ok(jobs)
}
