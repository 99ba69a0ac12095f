ghost use Rattle.std.specs.Prelude.{◌≡◌, ◌≢◌, ◌<◌};
ghost use Rattle.step_rules.specs.Kinds.Versions.{EndsRead, MayEndRead, MayLock, MayRelease};
ghost use Rattle.step_rules.specs.Layout.{cells};
ghost use Rattle.step_rules.specs.SeatData.{IsOf, IsSeat};
ghost use Rattle.step_rules.specs.Steps.{stepped};
ghost use Rattle.step_rules.specs.Views.{again_view, locked_view, missed_view, released_view, version_view};

use crate::plays::{LoadsAgain, Locks, Releases, VersionLoads};
use crate::seat::Seat;
use crate::shared::Shared;

/// Loads the version of a cell.
pub fn version_load(shared: &Shared, seat: &mut Seat, cell: u32) -> u64
    requires ours { IsOf shared.now seat.old }
    requires there { cell < cells shared.now.plan }
    ensures seat { seat.new ≡ stepped (version_view cell result seat.old.view) seat.old }
    ensures law { IsSeat seat.new }
{
    seat.fresh = false;
    let place = shared.version_place(cell);
    shared
        .table
        .shared
        .load::<VersionLoads>(&mut seat.inner, place)
}

/// Loads the version of a cell again, after a read of all inline words found the backup unmarked. Where
/// it is the version of the read, the words are those of the cell's first node at that backup load.
pub fn version_again(shared: &Shared, seat: &mut Seat, cell: u32) -> u64
    requires ours { IsOf shared.now seat.old }
    requires may { MayEndRead cell seat.old.view }
    ensures seat { seat.new ≡ stepped (again_view cell result seat.old.view) seat.old }
    ensures ends { EndsRead cell result seat.old.view }
    ensures law { IsSeat seat.new }
{
    seat.fresh = false;
    let place = shared.version_place(cell);
    shared
        .table
        .shared
        .load::<LoadsAgain>(&mut seat.inner, place)
}

/// Locks a cell in which a change is in flight, from an even version that the seat found there before
/// its exchange. It won exactly where it answers that version.
pub fn version_lock(shared: &Shared, seat: &mut Seat, cell: u32, version: u64) -> u64
    requires ours { IsOf shared.now seat.old }
    requires may { MayLock cell version seat.old.view }
    ensures won { result ≡ version → seat.new ≡ stepped (locked_view cell version seat.old.view) seat.old }
    ensures lost { result ≢ version → seat.new ≡ stepped (missed_view cell version result seat.old.view) seat.old }
    ensures law { IsSeat seat.new }
{
    seat.fresh = false;
    let place = shared.version_place(cell);
    let locked = version + 1;
    shared
        .table
        .shared
        .compare_exchange::<Locks>(&mut seat.inner, place, version, locked)
}

/// Releases the lock on a cell, after all its inline words were stored. The version is even again, and
/// no version that was found before.
pub fn version_release(shared: &Shared, seat: &mut Seat, cell: u32, version: u64)
    requires ours { IsOf shared.now seat.old }
    requires may { MayRelease cell version seat.old.view }
    ensures seat { seat.new ≡ stepped (released_view cell version seat.old.view) seat.old }
    ensures law { IsSeat seat.new }
{
    seat.fresh = false;
    let place = shared.version_place(cell);
    let next = version + 2;
    shared
        .table
        .shared
        .store::<Releases>(&mut seat.inner, place, next);
}
