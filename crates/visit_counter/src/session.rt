//! The whole count: a seat for each visitor, their visits, and what the closed table holds.
ghost use Rattle.std.specs.Prelude.{◌≡◌, ◌<◌, ◌≤◌, ◌^◌, All, IfOk, IfSome, length};
ghost use Rattle.cache_hash.specs.Prelude.{AreBack, AreLed, HasRoom, IsPlan, IsUnused, Stays, all_numbers, count_up};
ghost use Rattle.visit_counter.specs.Visits.{AreTotals, HasVisited};

use crate::visits::visit_all;
use cache_hash::{KeyWords, Plan, Seat, Shared, build, join_all, split_all};
use seat_history::PairList;
use std::alloc::{AllocError, Global};
use std::thread;
use std::thread::Threads;

/// What is to be counted, and on which table.
#[derive(Drop)]
pub(crate) struct Asked {
    plan: Plan,
    pages: Vec<KeyWords>,
    ghost fits: { IsPlan plan },
    ghost some: { 0 < plan.buckets },
    ghost room: { HasRoom plan },
    ghost left: { length pages.items ≤ plan.changes },
}

impl Asked {
    /// None where a number is out of its range, or there are too many pages. A visitor has a change for
    /// each page, and nodes for these and for the longest chain that there can be.
    pub(crate) fn of(visitors: u64, buckets: u64, pages: Vec<KeyWords>) -> Option<Asked>
        ensures { IfSome result (λ asked. (asked.pages ≡ pages) × (asked.plan.seats ≡ visitors)) }
    {
        let changes = pages.len() as u64;
        let most = 1 << 20;
        if visitors == 0 || visitors > 64 || buckets == 0 || buckets > most || changes > most {
            return None;
        }
        let share = changes + 4 * visitors + visitors * changes + 2;
        if share > 1 << 22 {
            return None;
        }
        let plan = Plan {
            seats: visitors as u32,
            share: share as u32,
            registers: 0,
            buckets: buckets as u32,
            changes,
            removes: 0,
        };
        Some(Asked { plan, pages })
    }
}

/// Counts all visits, and lists the pages with their visits by rising key: each page has a visit of each
/// visitor for each time that it is asked for, whatever order the threads' steps came in. None where
/// memory has no room for the table or the list, or the table would have too many nodes.
pub(crate) fn run<R: Threads + Sync>(
    rt: &R,
    alloc: Global,
    asked: &Asked,
) -> Result<Option<PairList>, AllocError>
    ensures { IfOk result (λ told. IfSome told (λ pairs. AreTotals asked.now.pages.items asked.now.plan.seats pairs)) }
{
    let Ok((shared, seat)) = build(alloc, &asked.plan) else {
        return Ok(None);
    };
    let Ok(seats) = split_all(alloc, &shared, seat) else {
        return Ok(None);
    };
    let seats = visit_in_threads(rt, &shared, seats, &asked.pages)?;
    Ok(totals(alloc, &asked.pages, shared, seats))
}

// Has each visitor go over the pages in a thread of its own.
fn visit_in_threads<R: Threads + Sync>(
    rt: &R,
    shared: &Shared,
    seats: Vec<Seat>,
    pages: &[KeyWords],
) -> Result<Vec<Seat>, AllocError>
    requires some { 0 < shared.now.plan.buckets }
    requires room { HasRoom shared.now.plan }
    requires left { length pages.now ≤ shared.now.plan.changes }
    requires unused { All (IsUnused shared.now) seats.items }
    ensures visited { IfOk result (λ back. All (HasVisited shared.now pages.now) back.items) }
    ensures back { IfOk result (λ back. AreBack seats.items back.items) }
    ensures each { IfOk result (λ back. length back.items ≡ length seats.items) }
{
    let job = |seat: Seat| -> Seat
        requires some { 0 < shared.now.plan.buckets }
        requires room { HasRoom shared.now.plan }
        requires left { length pages.now ≤ shared.now.plan.changes }
        requires unused { IsUnused shared.now seat }
        ensures visited { HasVisited shared.entry.now pages.entry.now result }
        ensures stays { Stays seat result }
    { visit_all(shared, seat, pages) };
    thread::map_vec(rt, seats, &job)
}

// Joins all seats, closes the table, and lists its pairs; None where memory has no room for them.
fn totals(alloc: Global, _pages: &[KeyWords], shared: Shared, seats: Vec<Seat>) -> Option<PairList>
    requires visited { All (HasVisited shared _pages.now) seats.items }
    requires led { AreLed seats.items }
    requires whole { all_numbers seats.items ≡ count_up 0 shared.plan.seats }
    requires each { length seats.items ≡ shared.plan.seats }
    requires few { (shared.plan.seats ≤ 64) × (length _pages.now ≤ 2 ^ 32) }
    ensures { IfSome result (λ pairs. AreTotals _pages.now shared.plan.seats pairs) }
{
    let mut rest = seats;
    let mut first = rest.remove(0);
    join_all(&shared, &mut first, rest);
    let closed = shared.close(first);
    closed.pairs(alloc).ok()
}
