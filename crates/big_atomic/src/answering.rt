//! Stands of calls that change nothing.
ghost use Rattle.std.specs.Prelude.{◌≡◌, length};
ghost use Rattle.step_rules.specs.Claims.{BACK};
ghost use Rattle.step_rules.specs.SeatData.{IsOf, IsSeat};
ghost use Rattle.step_rules.specs.Steps.{MayAnswer, stepped, unnoted};
ghost use Rattle.step_rules.specs.Views.{cleared_view, stood_view};

use hazard_claims::{Claim, release};
use seat_history::{Call, Reply};
use std::marker::Brand;
use step_rules::{Seat, Shared};

/// Adds a stand at the end of what the seat has seen, for a call that has no claim to end.
pub fn stand_now(shared: &Shared, seat: &mut Seat, call: Call, reply: Reply)
    requires ours { IsOf shared.now seat.old }
    requires may { MayAnswer (length seat.old.view.seen) call reply seat.old }
    ensures seat { seat.new ≡ stepped (stood_view (length seat.old.view.seen) call reply seat.old.view) seat.old }
    ensures law { IsSeat seat.new }
{
    // The place is the end of what the seat has seen.
    seat.stand::<Brand>(shared, call, reply);
}

/// Ends the Back claim, and adds a stand at the end of what the seat has seen.
pub fn answer_now(shared: &Shared, seat: &mut Seat, call: Call, reply: Reply)
    requires ours { IsOf shared.now seat.old }
    requires may { MayAnswer (length seat.old.view.seen) call reply seat.old }
    ensures seat { seat.new ≡ stepped (stood_view (length seat.old.view.seen) call reply (cleared_view BACK seat.old.view)) (unnoted BACK seat.old) }
    ensures law { IsSeat seat.new }
{
    // By its law at entry the release leaves the steps since the last stand. The caller owes no law.
    seat.law();
    release(shared, seat, Claim::Back);
    stand_now(shared, seat, call, reply);
}
