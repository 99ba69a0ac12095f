//! Replaces.
ghost use Rattle.std.specs.Prelude.{◌<◌, ◌≡◌};
ghost use Rattle.big_atomic.specs.Ready.{IsReady};
ghost use Rattle.cache_hash.specs.Asking.{replace_answer};
ghost use Rattle.cache_hash.specs.Calls.{IsReplaced};

use crate::answers::Replace;
use crate::asked::{Change, Told};
use crate::changes::change;
use seat_history::{KeyWords, ValWords};
use step_rules::{Seat, Shared};

/// Gives a key the new value where it has the old one. The order is Absent, Found, Yes without a
/// change where the two values are the same, Full, Yes. Full comes only where after a scan of this call
/// fewer nodes are free than are needed: those of all records up to the key's in its bucket. Each
/// further turn has a change of another caller to the key's bucket.
pub fn replace(
    shared: &Shared,
    seat: &mut Seat,
    key: KeyWords,
    old: ValWords,
    new: ValWords,
) -> Replace
    requires ready { IsReady shared.now seat.old }
    requires some { 0 < shared.now.plan.buckets }
    requires left { 0 < seat.old.view.changes }
    ensures ready { IsReady shared.now seat.new }
    ensures replaced { IsReplaced key old new result seat.old seat.new }
{
    let told = change(shared, seat, key, Change::Replace { old, new });
    replace_told(told, old)
}

// What a replace answers.
fn replace_told(told: Told, old: ValWords) -> Replace
    ensures { result ≡ replace_answer old told }
{
    match told {
        Told::Plain { there } => match there {
            None => Replace::Absent,
            Some(val) => {
                if val == old {
                    Replace::Yes
                } else {
                    Replace::Found(val)
                }
            }
        },
        Told::Full { need, free } => Replace::Full { need, free },
    }
}
