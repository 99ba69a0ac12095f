//! Where a key's bucket stands.
ghost use Rattle.std.specs.Prelude.{◌≡◌, ◌<◌};
ghost use Rattle.seat_history.specs.Key.{key_number};
ghost use Rattle.step_rules.specs.History.{key_cell};
ghost use Rattle.step_rules.specs.Layout.{IsPlan, cells};

use seat_history::KeyWords;
use step_rules::{Shared, bucket_index};

/// The cell of a key's bucket.
pub(crate) fn bucket_cell(shared: &Shared, key: KeyWords) -> u32
    requires plan { IsPlan shared.now.plan }
    requires some { 0 < shared.now.plan.buckets }
    ensures cell { result ≡ key_cell shared.now.plan (key_number key) }
    ensures there { result < cells shared.now.plan }
{
    let plan = shared.plan();
    plan.registers + bucket_index(plan.buckets, key)
}
