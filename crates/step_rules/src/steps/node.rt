ghost use Rattle.std.specs.Prelude.{◌≡◌, ◌<◌};
ghost use Rattle.step_rules.specs.Kinds.Node.{Reads};
ghost use Rattle.step_rules.specs.SeatData.{IsOf, IsSeat, Takes};
ghost use Rattle.step_rules.specs.Steps.{IsOwn, IsUnannounced, MayLoad, stepped};
ghost use Rattle.step_rules.specs.Views.{loaded_view, stored_view};
ghost use Rattle.step_rules.specs.declared.layout.TheConstants.{NODE_WIDTH};

use crate::plays::{Glances, Loads, Stores};
use crate::seat::Seat;
use crate::shared::Shared;

/// Stores one word of a node that is the seat's own and not announced. The first store to a free
/// node takes it.
pub fn node_store(shared: &Shared, seat: &mut Seat, node: u32, j: u32, word: u64)
    requires ours { IsOf shared.now seat.old }
    requires own { IsOwn node seat.old }
    requires unannounced { IsUnannounced node seat.old.view }
    requires word { j < NODE_WIDTH }
    ensures seat { Takes node (stepped (stored_view node j word seat.old.view) seat.old) seat.new }
    ensures law { IsSeat seat.new }
{
    seat.fresh = false;
    let place = shared.node_place(node, j);
    shared
        .table
        .shared
        .store::<Stores>(&mut seat.inner, place, word);
    seat.hold(node);
}

/// Loads one word of a node that the seat holds, or that a claim of it stands on.
pub fn node_load(shared: &Shared, seat: &mut Seat, node: u32, j: u32) -> u64
    requires ours { IsOf shared.now seat.old }
    requires known { MayLoad node seat.old }
    requires word { j < NODE_WIDTH }
    ensures seat { seat.new ≡ stepped (loaded_view node j result seat.old.view) seat.old }
    ensures reads { Reads node j result seat.old.view }
    ensures law { IsSeat seat.new }
{
    seat.fresh = false;
    let place = shared.node_place(node, j);
    shared.table.shared.load::<Loads>(&mut seat.inner, place)
}

/// Loads one word of such a node, as a step that isn't counted: a refresh reads its node so.
pub fn node_glance(shared: &Shared, seat: &mut Seat, node: u32, j: u32) -> u64
    requires ours { IsOf shared.now seat.old }
    requires known { MayLoad node seat.old }
    requires word { j < NODE_WIDTH }
    ensures seat { seat.new ≡ stepped seat.old.view seat.old }
    ensures reads { Reads node j result seat.old.view }
    ensures law { IsSeat seat.new }
{
    seat.fresh = false;
    let place = shared.node_place(node, j);
    shared.table.shared.load::<Glances>(&mut seat.inner, place)
}
