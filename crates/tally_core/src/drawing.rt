//! What a worker of a tally does, in its own thread: it draws batches, and adds their pairs.
ghost use Rattle.std.specs.Prelude.{◌≡◌, ◌<◌, ◌≤◌, ◌^◌, length, ℕ};
ghost use Rattle.big_atomic.specs.Seats.{Stays};
ghost use Rattle.tally_core.specs.Drawing.{AreBatchesOf, HasBegun, HasDrawn, HasWorked, IsDrawing};
ghost use Rattle.tally_core.specs.Draws.{batch_of, batches_of};

use crate::adding::add_pairs;
use crate::draws::BATCH;
use crate::worker::Drawer;
use big_atomic::Shared;
use flow_fold::{Key, Value};
use worker_gate::{Batches, Gate};

/// Draws batches and adds their pairs, until none is left or a call is answered Full. It passes the gate
/// before each draw, the last one included. No memory is taken: the draws have their room.
pub(crate) fn add_batches<G: Gate>(
    shared: &Shared,
    batches: &Batches,
    drawer: Drawer,
    pairs: &[(Key, Value)],
    gate: &G,
) -> Drawer
    requires begun { HasBegun shared.now batches.now drawer }
    requires some { 0 < shared.now.plan.buckets }
    requires of_pairs { (workers : ℕ) × AreBatchesOf pairs.now workers batches.now }
    requires few { length pairs.now ≤ 2 ^ 23 }
    requires changes { length pairs.now ≤ shared.now.plan.changes }
    ensures worked { HasWorked shared.now batches.now pairs.now result }
    ensures stays { Stays drawer.seat result.seat }
{
    let mut drawer = drawer;
    let number = drawer.seat.number();
    'draws: loop {
        let turn = drawer.told.drawn.len() as u32;
        gate.pass(number, turn);
        if !add_next(shared, batches, &mut drawer, pairs) {
            return drawer;
        }
    }
}

// Draws a batch and adds its pairs, and answers whether the worker goes on: not where no batch is left,
// and not after Full.
fn add_next(shared: &Shared, batches: &Batches, drawer: &mut Drawer, pairs: &[(Key, Value)]) -> bool
    requires drawing { IsDrawing shared.now batches.now pairs.now drawer.old }
    requires of_pairs { (workers : ℕ) × AreBatchesOf pairs.now workers batches.now }
    requires few { length pairs.now ≤ 2 ^ 23 }
    requires changes { length pairs.now ≤ shared.now.plan.changes }
    ensures drawn { HasDrawn shared.now batches.now pairs.now result drawer.old drawer.new }
    ensures stays { Stays drawer.old.seat drawer.new.seat }
{
    let Some(batch) = batches.next(&mut drawer.told.batches) else {
        return false;
    };
    drawer.told.drawn.push_reserved(batch);
    let added = add_pairs(shared, &mut drawer.seat, pairs_of(pairs, batch));
    drawer.told.full = !added;
    added
}

// The pairs of the batch with this number.
fn pairs_of(pairs: &[(Key, Value)], batch: u32) -> &[(Key, Value)]
    requires there { batch < batches_of (length pairs.now) }
    requires few { length pairs.now ≤ 2 ^ 23 }
    ensures { result.now ≡ batch_of pairs.now batch }
{
    let from = BATCH * batch as usize;
    let to = (from + BATCH).min(pairs.len());
    &pairs[from..to]
}
