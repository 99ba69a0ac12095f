ghost use Rattle.std.specs.Prelude.{◌<◌};
ghost use Rattle.big_atomic.specs.Calls.{IsLoaded};
ghost use Rattle.big_atomic.specs.Ready.{IsReady};

use crate::answering::{answer_now, stand_now};
use crate::claiming::{claim_record, record_of};
use cache_copy::{Inline, read_inline};
use hazard_claims::Claim;
use seat_history::{Call, Rec, Reply};
use step_rules::{Seat, Shared};

/// Loads a register: by one read of its inline words, which stores nothing, or, only where that found an
/// odd version, a marked backup or two versions that differ, by a claim on its node. Each further turn has
/// a change of another caller to the register, and is two steps more.
pub fn load(shared: &Shared, seat: &mut Seat, reg: u32) -> Rec
    requires ready { IsReady shared.now seat.old }
    requires there { reg < shared.now.plan.registers }
    ensures ready { IsReady shared.now seat.new }
    ensures loaded { IsLoaded reg result seat.old seat.new }
{
    match read_inline(shared, seat, reg) {
        Inline::Words(words) => {
            let rec = record_of(words);
            // The backup load was the read's last look, so the end of what is seen is its place.
            stand_now(shared, seat, Call::Load { reg }, Reply::Words(rec));
            rec
        }
        _ => {
            let found = claim_record(shared, seat, Claim::Back, reg);
            answer_now(shared, seat, Call::Load { reg }, Reply::Words(found.rec));
            found.rec
        }
    }
}
