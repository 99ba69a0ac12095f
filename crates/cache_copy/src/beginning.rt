ghost use Rattle.std.specs.Prelude.{◌≡◌, ◌<◌};
ghost use Rattle.step_rules.specs.Layout.{cells};
ghost use Rattle.step_rules.specs.SeatData.{IsOf, IsSeat};
ghost use Rattle.step_rules.specs.Steps.{stepped};
ghost use Rattle.step_rules.specs.Views.{version_view};

use step_rules::{Seat, Shared, version_load};

/// The version of a cell, as a change of it begins: by one version load.
pub fn begin(shared: &Shared, seat: &mut Seat, cell: u32) -> u64
    requires ours { IsOf shared.now seat.old }
    requires there { cell < cells shared.now.plan }
    ensures begun { seat.new ≡ stepped (version_view cell result seat.old.view) seat.old }
    ensures law { IsSeat seat.new }
{
    version_load(shared, seat, cell)
}
