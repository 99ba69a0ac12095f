//! What a worker does for speed alone: words are loaded before they are needed, and few nodes are in use.
ghost use Rattle.std.specs.Prelude.{◌<◌, false};
ghost use Rattle.big_atomic.specs.Seats.{Stays};
ghost use Rattle.flow_fold.specs.Flows.{Flows};
ghost use Rattle.step_rules.specs.Layout.{IsPlan};
ghost use Rattle.tally_core.specs.Attempts.{IsAdding};

use crate::adding::words_of_key;
use big_atomic::{Seat, Shared, reclaim};
use cache_hash::load_ahead;
use flow_fold::{Key, Value};
use seat_history::KeyWords;

/// How many pairs' words are loaded ahead at a time.
pub(crate) const AHEAD: usize = 32;

/// How many nodes stay retired besides those that claims may name.
const MOST_RETIRED: u32 = 256;

/// Loads ahead what the calls for the first pairs load.
pub(crate) fn load_pairs_ahead(shared: &Shared, pairs: &[(Key, Value)])
    requires plan { IsPlan shared.now.plan }
    requires some { 0 < shared.now.plan.buckets }
{
    let mut keys = [KeyWords { k0: 0, k1: 0 }; AHEAD];
    let count = pairs.len().min(AHEAD);
    for (words, pair) in keys.iter_mut().zip(pairs) {
        *words = words_of_key(pair.0);
    }
    load_ahead(shared, &keys[..count]);
}

/// Scans where many nodes are retired, so that the nodes written next were written not long ago.
pub(crate) fn reclaim_many(shared: &Shared, seat: &mut Seat)
    requires adding { (added : Flows) × IsAdding shared.now added false seat.old }
    ensures adding { (added : Flows) → IsAdding shared.now added false seat.old → IsAdding shared.now added false seat.new }
    ensures stays { Stays seat.old seat.new }
{
    let named = 4 * shared.plan().seats;
    if seat.retired() < named + MOST_RETIRED {
        return;
    }
    reclaim(shared, seat);
}
