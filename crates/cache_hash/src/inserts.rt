//! Inserts.
ghost use Rattle.std.specs.Prelude.{◌<◌, ◌≡◌};
ghost use Rattle.big_atomic.specs.Ready.{IsReady};
ghost use Rattle.cache_hash.specs.Asking.{insert_answer};
ghost use Rattle.cache_hash.specs.Calls.{IsInserted};

use crate::answers::Insert;
use crate::asked::{Change, Told};
use crate::changes::change;
use seat_history::{KeyWords, ValWords};
use step_rules::{Seat, Shared};

/// Adds a pair where its key isn't there. Present is answered before Full, and Full comes only where
/// after a scan of this call fewer nodes are free than are needed: one in an empty bucket, and two
/// beside other records. Each further turn has a change of another caller to the key's bucket.
pub fn insert(shared: &Shared, seat: &mut Seat, key: KeyWords, val: ValWords) -> Insert
    requires ready { IsReady shared.now seat.old }
    requires some { 0 < shared.now.plan.buckets }
    requires left { 0 < seat.old.view.changes }
    ensures ready { IsReady shared.now seat.new }
    ensures inserted { IsInserted key val result seat.old seat.new }
{
    let told = change(shared, seat, key, Change::Insert { val });
    insert_told(told)
}

// What an insert answers.
fn insert_told(told: Told) -> Insert
    ensures { result ≡ insert_answer told }
{
    match told {
        Told::Plain { there } => match there {
            None => Insert::Done,
            Some(val) => Insert::Present(val),
        },
        Told::Full { need, free } => Insert::Full { need, free },
    }
}
