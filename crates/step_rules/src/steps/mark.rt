ghost use Rattle.step_rules.specs.Kinds.Versions.{MayUnmark};
ghost use Rattle.step_rules.specs.SeatData.{IsOf, IsSeat};
ghost use Rattle.step_rules.specs.Steps.{Sees};
ghost use Rattle.step_rules.specs.declared.view.Kind.TheVariants.{MarkClear};

use crate::plays::Unmarks;
use crate::seat::Seat;
use crate::shared::Shared;

/// Clears the mark of a cell that the seat has released, where the cell's backup still is the marked node
/// which its change installed there; it answers the word found. In any case it sees the cell as a look
/// does.
pub fn mark_clear(shared: &Shared, seat: &mut Seat, cell: u32, node: u32) -> u64
    requires ours { IsOf shared.now seat.old }
    requires may { MayUnmark cell node seat.old.view }
    ensures seat { Sees (MarkClear cell node) cell result seat.old seat.new }
    ensures law { IsSeat seat.new }
{
    seat.fresh = false;
    let place = shared.backup_place(cell);
    let word = 2 * u64::from(node) + 1;
    shared
        .table
        .shared
        .compare_exchange::<Unmarks>(&mut seat.inner, place, word, word - 1)
}
