//! Giving nodes back before a call wants them.
ghost use Rattle.big_atomic.specs.Ready.{IsReady};
ghost use Rattle.hazard_claims.specs.Scanning.{IsScan};

use hazard_claims::scan;
use step_rules::{Seat, Shared};

/// Scans now: each retired node that no claim names is free again, and at most 4S stay retired, S being
/// the number of seats. Calls scan by themselves where they want more nodes than are free; to scan
/// earlier keeps the nodes that a seat writes few, and so near in the processor's caches. It adds no
/// stand.
pub fn reclaim(shared: &Shared, seat: &mut Seat)
    requires ready { IsReady shared.now seat.old }
    ensures ready { IsReady shared.now seat.new }
    ensures scanned { IsScan seat.old seat.new }
{
    scan(shared, seat);
}
