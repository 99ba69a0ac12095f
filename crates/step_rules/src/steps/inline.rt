ghost use Rattle.std.specs.Prelude.{◌≡◌};
ghost use Rattle.step_rules.specs.Kinds.Versions.{MayCopy, MayRead};
ghost use Rattle.step_rules.specs.SeatData.{IsOf, IsSeat};
ghost use Rattle.step_rules.specs.Steps.{stepped};
ghost use Rattle.step_rules.specs.Views.{copied_view, inline_view};

use crate::plays::{Copies, InlineLoads};
use crate::seat::Seat;
use crate::shared::Shared;

/// Loads the next inline word of the cell of a read under an even version.
pub fn inline_load(shared: &Shared, seat: &mut Seat, cell: u32, j: u32) -> u64
    requires ours { IsOf shared.now seat.old }
    requires may { MayRead cell j seat.old.view }
    ensures seat { seat.new ≡ stepped (inline_view cell j result seat.old.view) seat.old }
    ensures law { IsSeat seat.new }
{
    seat.fresh = false;
    let place = shared.inline_place(cell, j);
    shared
        .table
        .shared
        .load::<InlineLoads>(&mut seat.inner, place)
}

/// Stores the next inline word of a cell that the seat has locked: that of the node which its change
/// installed there.
pub fn inline_store(shared: &Shared, seat: &mut Seat, cell: u32, j: u32, word: u64)
    requires ours { IsOf shared.now seat.old }
    requires may { MayCopy cell j word seat.old.view }
    ensures seat { seat.new ≡ stepped (copied_view cell j word seat.old.view) seat.old }
    ensures law { IsSeat seat.new }
{
    seat.fresh = false;
    let place = shared.inline_place(cell, j);
    shared
        .table
        .shared
        .store::<Copies>(&mut seat.inner, place, word);
}
