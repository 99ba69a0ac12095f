//! A try to give a register a record.
ghost use Rattle.std.specs.Prelude.{length};
ghost use Rattle.big_atomic.specs.Giving.{Begun, Decided, Knows, stage_of};

use crate::answering::answer_now;
use crate::answers::{Given, Install};
use crate::changing::ready_node;
use crate::installs::try_install;
use crate::starting::Turn;
use hazard_claims::{Claim, release};
use node_pool::put_back_all;
use seat_history::{Call, Rec, Reply};
use step_rules::{Seat, Shared};

/// Gives a register, whose node was claimed and has this record, the new one. Where the record is the
/// new one it exchanges nothing. The call is answered where its register has the record or no node is
/// free; `done` is the reply where it has it. Where another caller's change came before, the node with
/// the new record stays held, so that a further turn need not fill one.
#[inline(always)]
pub(crate) fn give(
    shared: &Shared,
    seat: &mut Seat,
    reg: u32,
    turn: Turn,
    new: Rec,
    call: Call,
    done: Reply,
) -> Given
    requires past { (b : Begun shared.now reg new done call) × Knows b (Decided turn.version turn.word turn.rec turn.kept) seat.old }
    ensures given { (b : Begun shared.now reg new done call) → Knows b (Decided turn.version turn.word turn.rec turn.kept) seat.old
        → Knows b (stage_of done result (length seat.old.view.seen)) seat.new }
{
    if turn.rec == new {
        put_back_all(shared, seat);
        answer_now(shared, seat, call, done);
        return Given::Done;
    }
    let Some(node) = ready_node(shared, seat, turn.kept, new) else {
        answer_now(shared, seat, call, Reply::Full { need: 1, free: 0 });
        return Given::Full;
    };
    let answer = try_install(shared, seat, reg, turn.version, turn.word, node, call);
    let Install::Installed = answer else {
        return Given::Moved(node);
    };
    release(shared, seat, Claim::Back);
    Given::Done
}
