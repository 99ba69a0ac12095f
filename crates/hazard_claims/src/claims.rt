ghost use Rattle.std.specs.Prelude.{◌≡◌, ◌≢◌, ◌<◌};
ghost use Rattle.step_rules.specs.Claims.{OWN};
ghost use Rattle.step_rules.specs.declared.view.Stage.TheVariants.{Locked};
ghost use Rattle.hazard_claims.specs.Claiming.{IsAnnounced, IsReleased, Rechecked, claim_number};
ghost use Rattle.step_rules.specs.Kinds.Walking.{MayRecheck};
ghost use Rattle.step_rules.specs.Layout.{cells};
ghost use Rattle.step_rules.specs.SeatData.{IsOf, IsSeat};
ghost use Rattle.step_rules.specs.Steps.{MayClaim};

use crate::answers::Recheck;
use step_rules::{Seat, Shared, claim_clear, claim_store, recheck_load};

/// Which claim of a seat.
#[derive(Clone, Copy, Debug, Drop, PartialEq, Eq)]
pub enum Claim {
    /// The node that a cell's backup names.
    Back,
    /// A link of a chain.
    Walk,
    /// A node of the seat's own that it is about to install.
    Own,
    /// The node of the held record.
    Hold,
}

impl Claim {
    /// The place of the claim's word among those of a number.
    pub fn number(self) -> u32
        ensures { result ≡ claim_number self }
    {
        match self {
            Claim::Back => 0,
            Claim::Walk => 1,
            Claim::Own => 2,
            Claim::Hold => 3,
        }
    }
}

/// Announces a node. On Own the seat holds the node, and the claim stands at once.
pub fn announce(shared: &Shared, seat: &mut Seat, claim: Claim, node: u32)
    requires ours { IsOf shared.now seat.old }
    requires may { MayClaim (claim_number claim) node seat.old }
    ensures announced { IsAnnounced claim node seat.old seat.new }
    ensures law { IsSeat seat.new }
{
    claim_store(shared, seat, claim.number(), node);
}

/// Looks at a cell's backup again. Same comes exactly where it names the node of `seen`, with either
/// mark; from then on the claim stands. On Walk the Back claim stands on that node, and the link that
/// was announced is on its chain.
pub fn recheck(shared: &Shared, seat: &mut Seat, claim: Claim, cell: u32, seen: u64) -> Recheck
    requires ours { IsOf shared.now seat.old }
    requires there { cell < cells shared.now.plan }
    requires may { MayRecheck (claim_number claim) cell seen seat.old.view }
    ensures rechecked { Rechecked claim cell seen result seat.old seat.new }
    ensures law { IsSeat seat.new }
{
    let found = recheck_load(shared, seat, claim.number(), cell, seen);
    if found / 2 == seen / 2 {
        Recheck::Same(found)
    } else {
        Recheck::Other(found)
    }
}

/// Ends a claim.
pub fn release(shared: &Shared, seat: &mut Seat, claim: Claim)
    requires ours { IsOf shared.now seat.old }
    requires unlocked { claim_number claim ≡ OWN → seat.old.view.writer.stage ≢ Locked }
    ensures released { IsReleased claim seat.old seat.new }
    ensures law { IsSeat seat.new }
{
    claim_clear(shared, seat, claim.number());
}
