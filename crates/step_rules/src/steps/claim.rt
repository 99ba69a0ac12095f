ghost use Rattle.std.specs.Prelude.{◌≡◌, ◌≢◌, ◌<◌};
ghost use Rattle.step_rules.specs.Claims.{OWN, Tells, WALK};
ghost use Rattle.step_rules.specs.Kinds.Walking.{MayRecheck};
ghost use Rattle.step_rules.specs.Layout.{cells};
ghost use Rattle.step_rules.specs.SeatData.{IsOf, IsSeat};
ghost use Rattle.step_rules.specs.Steps.{IsRechecked, IsWalked, MayClaim, stepped, unnoted};
ghost use Rattle.step_rules.specs.Views.{announced_view, cleared_view};
ghost use Rattle.step_rules.specs.declared.layout.TheConstants.{CLAIMS};
ghost use Rattle.step_rules.specs.declared.view.Stage.TheVariants.{Locked};

use crate::place::Rechecking;
use crate::plays::{Announces, Clears, Rechecks};
use crate::seat::Seat;
use crate::shared::Shared;
use std::marker::Brand;

/// Announces a node in a claim word of the seat's least number, and ends the claim that stood in it.
/// On Own the seat holds the node, and the claim stands at once; on Hold no record is held. On Back
/// what is noted is taken back.
pub fn claim_store(shared: &Shared, seat: &mut Seat, claim: u32, node: u32)
    requires ours { IsOf shared.now seat.old }
    requires may { MayClaim claim node seat.old }
    ensures seat { seat.new ≡ stepped (announced_view claim node seat.old.view) (unnoted claim seat.old) }
    ensures law { IsSeat seat.new }
{
    seat.fresh = false;
    let place = shared.claim_place(seat.least, claim);
    let word = u64::from(node) + 1;
    shared
        .table
        .shared
        .store::<Announces>(&mut seat.inner, place, word);
    seat.claims[claim as usize] = word;
    seat.take_notes_back(claim);
}

fn recheck_told<R: Rechecking>(
    shared: &Shared,
    seat: &mut Seat,
    claim: u32,
    cell: u32,
    seen: u64,
) -> u64
    requires told { (claim ≡ R.claim) × (seen ≡ R.seen) }
    requires ours { IsOf shared.now seat.old }
    requires there { cell < cells shared.now.plan }
    requires may { MayRecheck claim cell seen seat.old.view }
    ensures told { Tells claim → IsRechecked claim cell seen result seat.old seat.new }
    ensures walked { claim ≡ WALK → IsWalked cell seen result seat.old seat.new }
    ensures law { IsSeat seat.new }
{
    seat.fresh = false;
    let place = shared.backup_place(cell);
    shared
        .table
        .shared
        .load::<Rechecks<R>>(&mut seat.inner, place)
}

/// Looks at the backup of a cell again, after the claim on Back or Hold was announced for the node
/// of `seen`, or the claim on Walk for a link of the chain that this node heads, on which the claim
/// on Back stands. Where it names the same node, with either mark, the claim stands from then on.
pub fn recheck_load(shared: &Shared, seat: &mut Seat, claim: u32, cell: u32, seen: u64) -> u64
    requires ours { IsOf shared.now seat.old }
    requires there { cell < cells shared.now.plan }
    requires may { MayRecheck claim cell seen seat.old.view }
    ensures told { Tells claim → IsRechecked claim cell seen result seat.old seat.new }
    ensures walked { claim ≡ WALK → IsWalked cell seen result seat.old seat.new }
    ensures law { IsSeat seat.new }
{
    recheck_told::<Brand>(shared, seat, claim, cell, seen)
}

/// Clears a claim word of the seat's least number, and ends the claim that stood in it. On Back what is
/// noted is taken back. On Own the change in flight ends, which has no lock then.
pub fn claim_clear(shared: &Shared, seat: &mut Seat, claim: u32)
    requires ours { IsOf shared.now seat.old }
    requires claim { claim < CLAIMS }
    requires unlocked { claim ≡ OWN → seat.old.view.writer.stage ≢ Locked }
    ensures seat { seat.new ≡ stepped (cleared_view claim seat.old.view) (unnoted claim seat.old) }
    ensures law { IsSeat seat.new }
{
    seat.fresh = false;
    let place = shared.claim_place(seat.least, claim);
    shared
        .table
        .shared
        .store::<Clears>(&mut seat.inner, place, 0);
    seat.claims[claim as usize] = 0;
    seat.take_notes_back(claim);
}
