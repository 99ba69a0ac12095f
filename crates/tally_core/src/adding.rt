//! Pairs, which a worker of a tally adds one after the other.
ghost use Rattle.std.specs.Prelude.{◌≡◌, ◌+◌, ◌<◌, ◌≤◌, false, length, not};
ghost use Rattle.big_atomic.specs.Seats.{Stays};
ghost use Rattle.flow_fold.specs.Flows.{Flows};
ghost use Rattle.tally_core.specs.Adding.{AreOfValue, Merges, key_words};
ghost use Rattle.tally_core.specs.Attempts.{HasAddedFirst, HasAddedOne, IsAdding, PutsMerged};

use crate::ahead::{AHEAD, load_pairs_ahead, reclaim_many};
use big_atomic::{Seat, Shared};
use cache_hash::{Update, update};
use flow_fold::{Key, Value, merge};
use seat_history::{KeyWords, ValWords};

/// Adds the pairs in order, until a call is answered Full, and answers whether all are added. No memory
/// is taken.
pub(crate) fn add_pairs(shared: &Shared, seat: &mut Seat, pairs: &[(Key, Value)]) -> bool
    requires adding { (added : Flows) × IsAdding shared.now added false seat.old × (length added + length pairs.now ≤ shared.now.plan.changes) }
    ensures added { (added : Flows) → IsAdding shared.now added false seat.old → HasAddedFirst shared.now added pairs.now (not result) seat.new }
    ensures stays { Stays seat.old seat.new }
{
    for i in 0..pairs.len() {
        if i % AHEAD == 0 {
            load_pairs_ahead(shared, &pairs[i..]);
        }
        reclaim_many(shared, seat);
        let (key, value) = pairs[i];
        if !add_pair(shared, seat, key, value) {
            return false;
        }
    }
    true
}

// Adds the pair by one update, and answers whether it is added.
fn add_pair(shared: &Shared, seat: &mut Seat, key: Key, value: Value) -> bool
    requires adding { (added : Flows) × IsAdding shared.now added false seat.old × (length added < shared.now.plan.changes) }
    ensures added { (added : Flows) → IsAdding shared.now added false seat.old → HasAddedOne shared.now added (key, value) result seat.new }
    ensures stays { Stays seat.old seat.new }
{
    let merged = |there: Option<ValWords>| -> ValWords
        ensures { PutsMerged value there result }
    { words_to_put(there, value) };
    match update(shared, seat, words_of_key(key), merged) {
        Update::Done { .. } => true,
        Update::Full { .. } => false,
    }
}

/// The key as the table has it.
pub(crate) fn words_of_key(key: Key) -> KeyWords
    ensures { result ≡ key_words key }
{
    KeyWords {
        k0: key.k0,
        k1: key.k1,
    }
}

// The value's words, where none are there, and else those of the value there with this one merged into it.
fn words_to_put(there: Option<ValWords>, value: Value) -> ValWords
    ensures { PutsMerged value there result }
{
    match there {
        None => value.words(),
        Some(old) => merge_words(old, value),
    }
}

// The words of the value that has these words, with another merged into it.
fn merge_words(old: ValWords, value: Value) -> ValWords
    ensures merges { Merges value old result }
    ensures of_value { AreOfValue result }
{
    let merged = merge(Value::of_words(old), value);
    merged.words()
}
