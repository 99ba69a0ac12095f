ghost use Rattle.hazard_claims.specs.Scanning.{ClearsWalk, IsScan};
ghost use Rattle.step_rules.specs.SeatData.{IsOf, IsSeat};

use crate::claims::{Claim, release};
use step_rules::{CLAIMS, Seat, Shared, scan_load};

/// Clears the Walk claim's word where it isn't 0.
pub fn clear_walk(shared: &Shared, seat: &mut Seat)
    requires ours { IsOf shared.now seat.old }
    ensures cleared { ClearsWalk seat.old seat.new }
    ensures law { IsSeat seat.new }
{
    if seat.claim_word(Claim::Walk.number()) != 0 {
        release(shared, seat, Claim::Walk);
    }
}

/// Reads all claim words, and gives back each retired node that none names. At most 4S nodes stay
/// retired, S being the number of seats, and none where the seat holds all numbers and is quiet.
pub fn scan(shared: &Shared, seat: &mut Seat)
    requires ours { IsOf shared.now seat.old }
    ensures scanned { IsScan seat.old seat.new }
    ensures law { IsSeat seat.new }
{
    clear_walk(shared, seat);
    for word in 0..CLAIMS * shared.plan().seats {
        scan_load(shared, seat, word);
    }
}
