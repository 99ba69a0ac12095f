ghost use Rattle.std.specs.Prelude.{◌<◌};
ghost use Rattle.big_atomic.specs.Calls.{IsSwapped};
ghost use Rattle.big_atomic.specs.Giving.{Begun, Claimed, IsOnce, Knows, Unlike};
ghost use Rattle.big_atomic.specs.Ready.{IsReady};
ghost use Rattle.big_atomic.specs.declared.answers.Swap.TheVariants.{No as SaidNo};
ghost use Rattle.seat_history.specs.declared.call.Call.TheVariants.{Swap as SwapCall};
ghost use Rattle.seat_history.specs.declared.reply.Reply.TheVariants.{Yes as YesReply};

use crate::answers::{Given, Swap};
use crate::claiming::{read_record, try_claim};
use crate::gives::give;
use crate::starting::{Start, Turn};
use cache_copy::begin;
use hazard_claims::{Claim, Recheck, release};
use node_pool::put_back_all;
use seat_history::{Call, Rec, Reply};
use std::marker::Brand;
use step_rules::{Place, Seat, Shared};

/// Gives a register the new record where it has the old one. No needs no node; where the two records
/// are the same it exchanges nothing. Full comes only where no node is free after a scan of this call.
/// One exchange is tried: where another caller's change comes before it, the register wasn't the old
/// record at some place since the look, and No stands at the first such place.
pub fn compare_and_swap(shared: &Shared, seat: &mut Seat, reg: u32, old: Rec, new: Rec) -> Swap
    requires ready { IsReady shared.now seat.old }
    requires there { reg < shared.now.plan.registers }
    requires left { 0 < seat.old.view.changes }
    ensures ready { IsReady shared.now seat.new }
    ensures swapped { IsSwapped reg old new result seat.old seat.new }
{
    let version = begin(shared, seat, reg);
    match try_claim(shared, seat, Claim::Back, reg) {
        Recheck::Same(word) => {
            let start = Start { version, word };
            swap_claimed::<Brand>(shared, seat, reg, start, old, new)
        }
        Recheck::Other(_) => {
            refuse::<Brand>(shared, seat, reg, old, new);
            Swap::No
        }
    }
}

// The call goes on after its look, whose place `P` names, once the node of its start is claimed.
fn swap_claimed<P: Place>(
    shared: &Shared,
    seat: &mut Seat,
    reg: u32,
    start: Start,
    old: Rec,
    new: Rec,
) -> Swap
    requires past { (b : Begun shared.now reg new YesReply (SwapCall reg old new)) × IsOnce P.place b × Knows b (Claimed start.version start.word) seat.old }
    ensures ends { (b : Begun shared.now reg new YesReply (SwapCall reg old new)) → IsOnce P.place b → Knows b (Claimed start.version start.word) seat.old
        → IsSwapped reg old new result b.before seat.new × IsReady shared.now seat.new }
{
    let rec = read_record(shared, seat, (start.word / 2) as u32);
    if rec != old {
        refuse::<P>(shared, seat, reg, old, new);
        return Swap::No;
    }
    let turn = Turn {
        version: start.version,
        word: start.word,
        rec,
        kept: None,
    };
    let call = Call::Swap { reg, old, new };
    match give(shared, seat, reg, turn, new, call, Reply::Yes) {
        Given::Done => Swap::Yes,
        Given::Full => Swap::Full { need: 1, free: 0 },
        Given::Moved(_) => {
            put_back_all(shared, seat);
            refuse::<P>(shared, seat, reg, old, new);
            Swap::No
        }
    }
}

// Ends the Back claim, and answers No, at the first place from the call's first look on, which is the
// place `P`, at which the register isn't the old record.
fn refuse<P: Place>(shared: &Shared, seat: &mut Seat, reg: u32, old: Rec, new: Rec)
    requires past { (b : Begun shared.now reg new YesReply (SwapCall reg old new)) × IsOnce P.place b × Knows b (Unlike old) seat.old }
    ensures ends { (b : Begun shared.now reg new YesReply (SwapCall reg old new)) → IsOnce P.place b → Knows b (Unlike old) seat.old
        → IsSwapped reg old new SaidNo b.before seat.new × IsReady shared.now seat.new }
{
    release(shared, seat, Claim::Back);
    seat.stand::<Brand>(shared, Call::Swap { reg, old, new }, Reply::No);
}
