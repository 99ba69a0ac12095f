//! What a seat knows of its view after a split or a join.
ghost use Rattle.std.specs.Prelude.{◌≡◌, ◌<◌, [], length};
ghost use Rattle.step_rules.specs.Sound.{Sound};

use crate::plays::Settles;
use crate::shared::Shared;
use crate::view::View;
use seat_history::Call;

// A load that changes nothing.
pub(crate) fn settle(shared: &Shared, inner: &mut atomic_table::Seat<Call, View>)
    requires ours { (inner.old.table_id ≡ shared.now.object) × (inner.old.me.0.plan ≡ shared.now.plan) }
    requires numbered { 0 < length inner.old.me.0.numbers }
    requires slots { inner.old.me.1 ≡ [] }
    ensures same { (inner.new.table_id ≡ inner.old.table_id) × (inner.new.id ≡ inner.old.id) × (inner.new.me ≡ inner.old.me) }
    ensures sound { Sound inner.new.me.0 }
{
    shared.table.shared.load::<Settles>(inner, 0);
}
