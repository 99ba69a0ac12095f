ghost use Rattle.std.specs.Prelude.{◌≡◌};
ghost use Rattle.step_rules.specs.SeatData.{IsOf, IsSeat};
ghost use Rattle.step_rules.specs.Steps.{MayAnswer, stepped};
ghost use Rattle.step_rules.specs.Views.{stood_view};

use crate::place::{Place, Telling};
use crate::plays::Stands;
use crate::seat::Seat;
use crate::shared::Shared;
use seat_history::{Call, Reply};
use std::marker::Brand;

fn stand_told<P: Place, T: Telling>(shared: &Shared, seat: &mut Seat, call: Call, reply: Reply)
    requires told { (call ≡ T.call) × (reply ≡ T.reply) }
    requires ours { IsOf shared.now seat.old }
    requires may { MayAnswer P.place call reply seat.old }
    ensures seat { seat.new ≡ stepped (stood_view P.place call reply seat.old.view) seat.old }
    ensures law { IsSeat seat.new }
{
    seat.fresh = false;
    shared.table.shared.load::<Stands<P, T>>(&mut seat.inner, 0);
    match call {
        Call::Hold { reg: _ } => seat.holds_record = true,
        Call::Release => seat.holds_record = false,
        _ => {}
    }
}

impl Seat {
    /// Adds the stand of a call that changes nothing, at the place that `P` names: the reply is right
    /// there, the seat has looked at the call's cell since its last stand, and the place isn't before
    /// what it had seen then.
    pub fn stand<P: Place>(&mut self, shared: &Shared, call: Call, reply: Reply)
        requires ours { IsOf shared.now self.old }
        requires may { MayAnswer P.place call reply self.old }
        ensures seat { self.new ≡ stepped (stood_view P.place call reply self.old.view) self.old }
        ensures law { IsSeat self.new }
    {
        stand_told::<P, Brand>(shared, self, call, reply);
    }
}
