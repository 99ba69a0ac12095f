ghost use Rattle.std.specs.Prelude.{◌≡◌, ◌<◌, ℕ, List, false, true};
ghost use Rattle.big_atomic.specs.Calls.{IsHeld, IsLooked, IsReleased};
ghost use Rattle.big_atomic.specs.Ready.{IsReady};
ghost use Rattle.step_rules.specs.Claims.{HOLD, On};
ghost use Rattle.step_rules.specs.SeatData.{IsHolding, holds_record};
ghost use Rattle.step_rules.specs.Views.{claim_of};

use crate::answering::stand_now;
use crate::claiming::{claim_record, read_record};
use hazard_claims::{Claim, release};
use seat_history::{Call, Rec, Reply};
use step_rules::{Seat, Shared};

/// Holds the record that a register has at this moment, until `release_hold`. Each further turn has a
/// change of another caller to the register, and is two steps more.
pub fn hold(shared: &Shared, seat: &mut Seat, reg: u32)
    requires ready { IsReady shared.now seat.old }
    requires there { reg < shared.now.plan.registers }
    requires none_held { holds_record seat.old.view ≡ false }
    ensures ready { IsReady shared.now seat.new }
    ensures held { IsHeld reg seat.old seat.new }
{
    claim_record(shared, seat, Claim::Hold, reg);
    stand_now(shared, seat, Call::Hold { reg }, Reply::Done);
}

/// The held record, whatever was stored since.
pub fn look(shared: &Shared, seat: &mut Seat) -> Rec
    requires ready { IsReady shared.now seat.old }
    requires held { holds_record seat.old.view ≡ true }
    ensures ready { IsReady shared.now seat.new }
    ensures looked { IsLooked result seat.old seat.new }
{
    let node = held_node(seat);
    let rec = read_record(shared, seat, node);
    stand_now(shared, seat, Call::Look, Reply::Words(rec));
    rec
}

/// Holds the record no more.
pub fn release_hold(shared: &Shared, seat: &mut Seat)
    requires ready { IsReady shared.now seat.old }
    requires held { holds_record seat.old.view ≡ true }
    ensures ready { IsReady shared.now seat.new }
    ensures released { IsReleased seat.old seat.new }
{
    release(shared, seat, Claim::Hold);
    stand_now(shared, seat, Call::Release, Reply::Done);
}

// The node of the held record.
fn held_node(seat: &Seat) -> u32
    requires held { (words : List ℕ) × IsHolding words seat.now.view }
    ensures { On (claim_of HOLD seat.now.view) result }
{
    (seat.claim_word(Claim::Hold.number()) - 1) as u32
}
