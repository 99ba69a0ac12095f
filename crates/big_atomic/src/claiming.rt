//! Claims on the node that a register's cell names.
ghost use Rattle.std.specs.Prelude.{◌≡◌, ◌+◌, ◌<◌, ◌++◌, ◌∷◌, [], false, length, take};
ghost use Rattle.big_atomic.specs.Calling.{HasClaimed, HasClaimedRecord, HasFound, HasRead, HasTried, HasTurned, LookedOnce, TakesFew};
ghost use Rattle.hazard_claims.specs.Claiming.{claim_number};
ghost use Rattle.seat_history.specs.declared.words.TheConstants.{WIDTH};
ghost use Rattle.step_rules.specs.Claims.{HOLD, Tells};
ghost use Rattle.step_rules.specs.Layout.{cells};
ghost use Rattle.step_rules.specs.SeatData.{IsOf, IsSeat, holds_record};
ghost use Rattle.step_rules.specs.Steps.{MayLoad};

use hazard_claims::{Claim, Recheck, announce, recheck};
use node_pool::{NodeWords, node_words};
use seat_history::{Rec, WIDTH};
use step_rules::{NODE_WIDTH, Seat, Shared, backup_load};

/// What was found in a register: the backup word, and the record of its node.
#[derive(Clone, Copy, Drop)]
pub(crate) struct Image {
    pub(crate) word: u64,
    pub(crate) rec: Rec,
}

/// Claims the node of a register and reads its record.
pub(crate) fn claim_record(shared: &Shared, seat: &mut Seat, claim: Claim, reg: u32) -> Image
    requires ours { IsOf shared.now seat.old }
    requires there { reg < shared.now.plan.registers }
    requires tells { Tells (claim_number claim) }
    requires free { claim_number claim ≡ HOLD → holds_record seat.old.view ≡ false }
    ensures claimed { HasClaimedRecord (claim_number claim) reg result.word result.rec seat.old seat.new }
    ensures few { TakesFew (WIDTH + 4) seat.old seat.new }
    ensures law { IsSeat seat.new }
{
    let word = claim_node(shared, seat, claim, reg);
    let rec = read_record(shared, seat, (word / 2) as u32);
    Image { word, rec }
}

/// Claims the node that a cell names. Each further turn has a change of another caller to the cell.
pub fn claim_node(shared: &Shared, seat: &mut Seat, claim: Claim, reg: u32) -> u64
    requires ours { IsOf shared.now seat.old }
    requires there { reg < cells shared.now.plan }
    requires tells { Tells (claim_number claim) }
    requires free { claim_number claim ≡ HOLD → holds_record seat.old.view ≡ false }
    ensures claimed { HasClaimed (claim_number claim) reg result seat.old seat.new }
    ensures few { TakesFew 3 seat.old seat.new }
    ensures law { IsSeat seat.new }
{
    // By its law at entry no step changes whether a record is held. The caller owes no law.
    seat.law();
    let mut seen = look_first(shared, seat, reg);
    'turns: loop {
        match claim_once(shared, seat, claim, reg, seen) {
            Recheck::Same(word) => return word,
            Recheck::Other(word) => seen = word,
        }
    }
}

/// Looks at a register, announces the node found, and looks once more.
pub(crate) fn try_claim(shared: &Shared, seat: &mut Seat, claim: Claim, reg: u32) -> Recheck
    requires ours { IsOf shared.now seat.old }
    requires there { reg < cells shared.now.plan }
    requires tells { Tells (claim_number claim) }
    requires free { claim_number claim ≡ HOLD → holds_record seat.old.view ≡ false }
    requires law { IsSeat seat.old }
    ensures tried { HasTried (claim_number claim) reg result seat.old seat.new }
    ensures law { IsSeat seat.new }
{
    let seen = look_first(shared, seat, reg);
    claim_once(shared, seat, claim, reg, seen)
}

/// Looks at a register.
pub(crate) fn look_first(shared: &Shared, seat: &mut Seat, reg: u32) -> u64
    requires ours { IsOf shared.now seat.old }
    requires there { reg < cells shared.now.plan }
    requires law { IsSeat seat.old }
    ensures looked { LookedOnce reg result seat.old seat.new }
    ensures law { IsSeat seat.new }
{
    backup_load(shared, seat, reg)
}

/// Announces the node of the word that was found last, and looks again.
pub(crate) fn claim_once(
    shared: &Shared,
    seat: &mut Seat,
    claim: Claim,
    reg: u32,
    seen: u64,
) -> Recheck
    requires ours { IsOf shared.now seat.old }
    requires there { reg < cells shared.now.plan }
    requires tells { Tells (claim_number claim) }
    requires free { claim_number claim ≡ HOLD → holds_record seat.old.view ≡ false }
    requires found { HasFound reg seen seat.old.view }
    requires law { IsSeat seat.old }
    ensures turned { HasTurned (claim_number claim) reg seen result seat.old seat.new }
    ensures law { IsSeat seat.new }
{
    announce(shared, seat, claim, (seen / 2) as u32);
    recheck(shared, seat, claim, reg, seen)
}

/// Reads the record of a node that the seat holds, or that a claim of it stands on.
pub(crate) fn read_record(shared: &Shared, seat: &mut Seat, node: u32) -> Rec
    requires ours { IsOf shared.now seat.old }
    requires known { MayLoad node seat.old }
    ensures read { HasRead node result seat.old seat.new }
    ensures law { IsSeat seat.new }
{
    record_of(node_words(shared, seat, node))
}

/// The record of a node's words.
pub(crate) fn record_of(words: NodeWords) -> Rec
    ensures { result ≡ take WIDTH words }
{
    let mut rec = [0; WIDTH];
    rec.copy_from_slice(&words[..WIDTH]);
    rec
}

/// The words of a register's node with this record.
pub(crate) fn words_of(rec: Rec) -> NodeWords
    ensures { result ≡ rec ++ 0 ∷ [] }
{
    let mut words = [0; NODE_WIDTH];
    words[..WIDTH].copy_from_slice(&rec);
    words
}
