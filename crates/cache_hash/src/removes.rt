//! Removes.
ghost use Rattle.std.specs.Prelude.{◌<◌, ◌≡◌};
ghost use Rattle.big_atomic.specs.Ready.{IsReady};
ghost use Rattle.cache_hash.specs.Asking.{remove_answer};
ghost use Rattle.cache_hash.specs.Calls.{IsRemoved};

use crate::answers::Remove;
use crate::asked::{Change, Told};
use crate::changes::change;
use seat_history::KeyWords;
use step_rules::{Seat, Shared};

/// Takes a key's pair out, and answers the value that it had. Absent is answered before Full, and Full
/// comes only where after a scan of this call fewer nodes are free than are needed: those of the records
/// before the key's in its bucket, but one at least. Each further turn has a change of another caller to
/// the key's bucket.
pub fn remove(shared: &Shared, seat: &mut Seat, key: KeyWords) -> Remove
    requires ready { IsReady shared.now seat.old }
    requires some { 0 < shared.now.plan.buckets }
    requires left { 0 < seat.old.view.changes }
    requires removes { 0 < seat.old.view.removes }
    ensures ready { IsReady shared.now seat.new }
    ensures removed { IsRemoved key result seat.old seat.new }
{
    let told = change(shared, seat, key, Change::Remove);
    remove_told(told)
}

// What a remove answers.
fn remove_told(told: Told) -> Remove
    ensures { result ≡ remove_answer told }
{
    match told {
        Told::Plain { there } => match there {
            None => Remove::Absent,
            Some(val) => Remove::Gone(val),
        },
        Told::Full { need, free } => Remove::Full { need, free },
    }
}
