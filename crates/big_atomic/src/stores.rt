ghost use Rattle.std.specs.Prelude.{◌<◌};
ghost use Rattle.big_atomic.specs.Calls.{IsStored};
ghost use Rattle.big_atomic.specs.Ready.{IsReady};

use crate::answers::{Given, Stored};
use crate::gives::give;
use crate::starting::begin_turn;
use seat_history::{Call, Rec, Reply};
use step_rules::{Seat, Shared};

/// Gives a register a new record. A store of the record that is there exchanges nothing. Full comes
/// only where no node is free after a scan of this call. Each further turn has a change of another
/// caller to the register, and tries the node that the first one filled: none fills another.
pub fn store(shared: &Shared, seat: &mut Seat, reg: u32, new: Rec) -> Stored
    requires ready { IsReady shared.now seat.old }
    requires there { reg < shared.now.plan.registers }
    requires left { 0 < seat.old.view.changes }
    ensures ready { IsReady shared.now seat.new }
    ensures stored { IsStored reg new result seat.old seat.new }
{
    let call = Call::Store { reg, new };
    let mut turn = begin_turn(shared, seat, reg, None);
    'turns: loop {
        match give(shared, seat, reg, turn, new, call, Reply::Done) {
            Given::Done => return Stored::Done,
            Given::Full => return Stored::Full { need: 1, free: 0 },
            Given::Moved(node) => turn = begin_turn(shared, seat, reg, Some(node)),
        }
    }
}
