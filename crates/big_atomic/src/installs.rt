//! The last part of a change of any cell.
ghost use Rattle.std.specs.Prelude.{◌≢◌};
ghost use Rattle.big_atomic.specs.Installing.{HasNear, InstallTried, Installs, MayInstall};
ghost use Rattle.big_atomic.specs.Marks.{HasBegun};
ghost use Rattle.step_rules.specs.SeatData.{IsOf, IsSeat};
ghost use Rattle.step_rules.specs.Steps.{DropsNoted, HoldsFront};
ghost use Rattle.step_rules.specs.declared.view.Stage.TheVariants.{Locked};

use crate::answers::Install;
use crate::changing::exchange;
use cache_copy::refresh;
use hazard_claims::{Claim, announce, release};
use node_pool::put_back_all;
use seat_history::Call;
use step_rules::{Seat, Shared};

/// Gives a cell the chain that the call makes of the claimed one. The held nodes are its front, linked
/// from `node` on, and the seat's Back claim stands on the node of `seen`. The seat found `version` in
/// the cell before it found `seen`, and lost no step since. Installed exactly where the exchange won:
/// then the call is the entry at its stand's place, no node is held, and the cell is refreshed by that
/// version. Moved exactly where the exchange found another node: the history has no entry of this call
/// then, and every node that was held is free again. The Own claim is ended; Back and Walk stay.
#[inline(always)]
pub fn install(
    shared: &Shared,
    seat: &mut Seat,
    cell: u32,
    version: u64,
    seen: u64,
    node: u32,
    call: Call,
) -> Install
    requires ours { IsOf shared.now seat.old }
    requires may { MayInstall cell seen node call seat.old.view }
    requires front { HoldsFront node call seat.old }
    requires noted { DropsNoted call seat.old }
    requires found { HasNear cell seen seat.old.view }
    requires begun { HasBegun cell version seen seat.old.view }
    requires unlocked { seat.old.view.writer.stage ≢ Locked }
    ensures installs { Installs cell version seen node call result seat.old seat.new }
    ensures law { IsSeat seat.new }
{
    let answer = try_install(shared, seat, cell, version, seen, node, call);
    let Install::Moved(word) = answer else {
        return Install::Installed;
    };
    put_back_all(shared, seat);
    Install::Moved(word)
}

/// As `install`, but where another node was found the held ones stay held, with their words.
#[inline(always)]
pub(crate) fn try_install(
    shared: &Shared,
    seat: &mut Seat,
    cell: u32,
    version: u64,
    seen: u64,
    node: u32,
    call: Call,
) -> Install
    requires ours { IsOf shared.now seat.old }
    requires may { MayInstall cell seen node call seat.old.view }
    requires front { HoldsFront node call seat.old }
    requires noted { DropsNoted call seat.old }
    requires found { HasNear cell seen seat.old.view }
    requires begun { HasBegun cell version seen seat.old.view }
    requires unlocked { seat.old.view.writer.stage ≢ Locked }
    ensures tried { InstallTried cell version seen node call result seat.old seat.new }
    ensures law { IsSeat seat.new }
{
    announce(shared, seat, Claim::Own, node);
    let answer = exchange(shared, seat, cell, seen, node, call);
    let Install::Moved(word) = answer else {
        refresh(shared, seat, cell, node, version);
        release(shared, seat, Claim::Own);
        return Install::Installed;
    };
    release(shared, seat, Claim::Own);
    Install::Moved(word)
}
