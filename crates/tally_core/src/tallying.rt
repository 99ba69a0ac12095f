//! Pairs added up on a shared object, by workers that draw batches of them.
ghost use Rattle.std.specs.Prelude.{◌≡◌, ◌+◌, ◌*◌, ◌<◌, ◌≤◌, ◌^◌, Err, IfOk, length, ℕ};
ghost use Rattle.big_atomic.specs.Seats.{AreBack, Stays};
ghost use Rattle.tally_core.specs.Adding.{HasFlows, HasMoreKeys, IsTallied, plan_of_tally};
ghost use Rattle.tally_core.specs.Drawing.{AreBatchesOf, HasBegun, HasWorked};
ghost use Rattle.tally_core.specs.Tallying.{HasAddedUp, HaveBegun, HaveWorked, TalliesTo};
ghost use Rattle.tally_core.specs.Workers.{seats_of};
ghost use Rattle.tally_core.specs.declared.tallying.TallyEnd.TheVariants.{TooManyFlows};

use crate::closing::close_all;
use crate::drawing::add_batches;
use crate::draws::DrawList;
use crate::opening::open_seats;
use crate::sharing::{draws_of, is_any_full, join_places, share_batches};
use crate::worker::Drawer;
use big_atomic::{Closed, NoMemory, Plan, Shared};
use flow_fold::{FlowList, Key, Value};
use std::alloc::{AllocError, Global};
use std::thread::{self, Threads};
use worker_gate::{Batches, Gate};

/// What pairs add up to, and the object on which they were added up.
#[derive(Drop)]
pub struct Tallied {
    pub flows: FlowList,
    pub closed: Closed,
    /// Which worker drew which batch: by rising worker, and for each worker in its order.
    pub draws: DrawList,
}

/// Why pairs weren't added up.
#[derive(Clone, Copy, Debug, Drop, PartialEq, Eq)]
pub enum TallyEnd {
    /// They have more keys than they may.
    TooManyFlows,
    NoMemory,
}

/// Adds up pairs on a shared object by so many workers, each in a thread of its own where one can be
/// started, and else here, on its seat and number. They draw batches of 256 pairs, which are shared work:
/// which worker draws which is not promised. A worker passes the gate before each draw, with turns from 0.
/// TooManyFlows comes exactly where the pairs have more keys than `flows`.
pub fn tally<R: Threads + Sync, G: Gate>(
    rt: &R,
    alloc: Global,
    pairs: &[(Key, Value)],
    workers: u32,
    flows: u32,
    buckets: u32,
    gate: &G,
) -> Result<Tallied, TallyEnd>
    requires workers { (1 ≤ workers) × (workers ≤ 64) }
    requires flows { (1 ≤ flows) × (flows ≤ 1048576) }
    requires buckets { (1 ≤ buckets) × (buckets ≤ 1048576) }
    requires fits { workers * (2 * flows + 4 * workers + 1) + buckets ≤ 2 ^ 24 }
    requires few { length pairs.now ≤ 2 ^ 23 }
    ensures tallied { IfOk result (λ told. IsTallied (plan_of_tally pairs.now workers flows buckets) pairs.now told.flows told.closed told.draws × (length told.flows ≤ flows)) }
    ensures many { result ≡ Err TooManyFlows → HasMoreKeys flows pairs.now }
{
    match add_up(rt, alloc, pairs, workers, flows, buckets, gate) {
        Ok(Some(tallied)) => Ok(tallied),
        Ok(None) => Err(TallyEnd::TooManyFlows),
        Err(_) => Err(TallyEnd::NoMemory),
    }
}

// Adds up the pairs; None where they have too many keys.
fn add_up<R: Threads + Sync, G: Gate>(
    rt: &R,
    alloc: Global,
    pairs: &[(Key, Value)],
    workers: u32,
    flows: u32,
    buckets: u32,
    gate: &G,
) -> Result<Option<Tallied>, NoMemory>
    requires workers { (1 ≤ workers) × (workers ≤ 64) }
    requires flows { (1 ≤ flows) × (flows ≤ 1048576) }
    requires buckets { (1 ≤ buckets) × (buckets ≤ 1048576) }
    requires fits { workers * (2 * flows + 4 * workers + 1) + buckets ≤ 2 ^ 24 }
    requires few { length pairs.now ≤ 2 ^ 23 }
    ensures { IfOk result (TalliesTo pairs.now workers flows buckets) }
{
    let up = add_on_object(rt, alloc, pairs, workers, flows, buckets, gate)?;
    if up.full {
        return Ok(None);
    }
    let found = flows_in(alloc, &up.closed)?;
    if found.as_slice().len() > flows as usize {
        return Ok(None);
    }
    Ok(Some(Tallied {
        flows: found,
        closed: up.closed,
        draws: up.draws,
    }))
}

// What comes of the workers of a tally.
#[derive(Drop)]
struct AddedUp {
    closed: Closed,
    draws: DrawList,
    // Whether a call was answered Full.
    full: bool,
}

// Adds the pairs on an object, which is closed then.
fn add_on_object<R: Threads + Sync, G: Gate>(
    rt: &R,
    alloc: Global,
    pairs: &[(Key, Value)],
    workers: u32,
    flows: u32,
    buckets: u32,
    gate: &G,
) -> Result<AddedUp, NoMemory>
    requires workers { (1 ≤ workers) × (workers ≤ 64) }
    requires flows { (1 ≤ flows) × (flows ≤ 1048576) }
    requires buckets { (1 ≤ buckets) × (buckets ≤ 1048576) }
    requires fits { workers * (2 * flows + 4 * workers + 1) + buckets ≤ 2 ^ 24 }
    requires few { length pairs.now ≤ 2 ^ 23 }
    ensures added { IfOk result (λ up. HasAddedUp workers flows buckets pairs.now up.closed up.draws up.full) }
{
    let plan = tally_plan(pairs, workers, flows, buckets);
    let (shared, seats) = open_seats(alloc, &plan)?;
    let (batches, drawers) = share_batches(alloc, pairs.len(), seats)?;
    let drawers = add_all(rt, &shared, &batches, drawers, pairs, gate)?;
    let full = is_any_full(&drawers);
    let draws = draws_of(alloc, &drawers)?;
    let seats = join_places(alloc, &batches, drawers)?;
    let closed = close_all(shared, seats);
    Ok(AddedUp {
        closed,
        draws,
        full,
    })
}

// The plan of the pairs' object.
fn tally_plan(pairs: &[(Key, Value)], workers: u32, flows: u32, buckets: u32) -> Plan
    requires workers { workers ≤ 64 }
    requires flows { flows ≤ 1048576 }
    ensures { result ≡ plan_of_tally pairs.now workers flows buckets }
{
    Plan {
        seats: workers,
        share: 2 * flows + 4 * workers + 1,
        registers: 0,
        buckets,
        changes: pairs.len() as u64,
        removes: 0,
    }
}

// Each worker draws batches and adds their pairs.
fn add_all<R: Threads + Sync, G: Gate>(
    rt: &R,
    shared: &Shared,
    batches: &Batches,
    drawers: Vec<Drawer>,
    pairs: &[(Key, Value)],
    gate: &G,
) -> Result<Vec<Drawer>, AllocError>
    requires begun { HaveBegun shared.now batches.now drawers.items }
    requires some { 0 < shared.now.plan.buckets }
    requires of_pairs { (workers : ℕ) × AreBatchesOf pairs.now workers batches.now }
    requires few { length pairs.now ≤ 2 ^ 23 }
    requires changes { length pairs.now ≤ shared.now.plan.changes }
    ensures worked { IfOk result (λ all. HaveWorked shared.now batches.now pairs.now all.items) }
    ensures back { IfOk result (λ all. AreBack (seats_of drawers.items) (seats_of all.items)) }
{
    let job = |drawer: Drawer| -> Drawer
        requires begun { HasBegun shared.now batches.now drawer }
        requires some { 0 < shared.now.plan.buckets }
        requires of_pairs { (workers : ℕ) × AreBatchesOf pairs.now workers batches.now }
        requires few { length pairs.now ≤ 2 ^ 23 }
        requires changes { length pairs.now ≤ shared.now.plan.changes }
        ensures worked { HasWorked shared.entry.now batches.entry.now pairs.entry.now result }
        ensures stays { Stays drawer.seat result.seat }
    { add_batches(shared, batches, drawer, pairs, gate) };
    thread::map_vec(rt, drawers, &job)
}

// The pairs of the closed object, as flows.
fn flows_in(alloc: Global, closed: &Closed) -> Result<FlowList, NoMemory>
    ensures flows { IfOk result (HasFlows closed.now) }
{
    let pairs = closed.pairs(alloc)?;
    let pairs = pairs.as_slice();
    let mut items = Vec::with_capacity(alloc, pairs.len())?;
    for i in 0..pairs.len() {
        let (key, val) = pairs[i];
        let key = Key {
            k0: key.k0,
            k1: key.k1,
        };
        items.push_reserved((key, Value::of_words(val)));
    }
    Ok(FlowList::of_vec(items))
}
