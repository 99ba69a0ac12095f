ghost use Rattle.std.specs.Prelude.{◌≡◌};
ghost use Rattle.cache_copy.specs.Refreshing.{HasLock, IsInFlight, OnlyRefreshed, Refreshes, copied_view};
ghost use Rattle.step_rules.specs.SeatData.{IsOf, IsSeat};
ghost use Rattle.step_rules.specs.Steps.{stepped};
ghost use Rattle.step_rules.specs.Versions.{FoundVersion};

use crate::answers::{Refresh, Stale};
use step_rules::{
    NODE_WIDTH, Seat, Shared, inline_store, mark_clear, node_glance, version_lock, version_release,
};

/// Brings the words of the node that a change in flight installed in the cell into its inline words, and
/// clears the cell's mark. The version is one that the seat found there before its exchange. Odd exactly
/// where it is odd, Last exactly where it is even and at least 2^63, Moved exactly where the lock found
/// another one, Replaced exactly where the clear of the mark found another backup word than the marked
/// node's, else Refreshed.
pub fn refresh(shared: &Shared, seat: &mut Seat, cell: u32, node: u32, version: u64) -> Refresh
    requires ours { IsOf shared.now seat.old }
    requires flight { IsInFlight cell node seat.old.view }
    requires found { FoundVersion cell version seat.old.view.writer.before }
    ensures answer { Refreshes cell node version result seat.old seat.new }
    ensures only { OnlyRefreshed seat.old seat.new }
    ensures law { IsSeat seat.new }
{
    seat.law();
    if version % 2 == 1 {
        return Refresh::LeftStale(Stale::Odd);
    }
    if version >= 1 << 63 {
        return Refresh::LeftStale(Stale::Last);
    }
    let found = version_lock(shared, seat, cell, version);
    if found != version {
        return Refresh::LeftStale(Stale::Moved);
    }
    copy_words(shared, seat, cell, node);
    version_release(shared, seat, cell, version);
    let word = mark_clear(shared, seat, cell, node);
    if word != 2 * u64::from(node) + 1 {
        return Refresh::LeftStale(Stale::Replaced);
    }
    Refresh::Refreshed
}

/// Stores all words of the node that a change installed in the cell, which it has locked.
fn copy_words(shared: &Shared, seat: &mut Seat, cell: u32, node: u32)
    requires ours { IsOf shared.now seat.old }
    requires law { IsSeat seat.old }
    requires locked { HasLock cell node seat.old.view }
    ensures copied { seat.new ≡ stepped (copied_view cell seat.old.view) seat.old }
    ensures law { IsSeat seat.new }
{
    for j in 0..NODE_WIDTH as u32 {
        let word = node_glance(shared, seat, node, j);
        inline_store(shared, seat, cell, j, word);
    }
}
