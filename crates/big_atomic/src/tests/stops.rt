//! Seats that make some steps of a call on the first register, and are dropped.
ghost use Rattle.std.specs.Prelude.{◌≢◌, ◌<◌};
ghost use Rattle.big_atomic.specs.Giving.{Begun, Decided, Knows};
ghost use Rattle.big_atomic.specs.Installing.{HasNear, MayInstall};
ghost use Rattle.big_atomic.specs.Marks.{HasBegun};
ghost use Rattle.big_atomic.specs.Ready.{IsReady};
ghost use Rattle.cache_copy.specs.Refreshing.{IsInFlight};
ghost use Rattle.seat_history.specs.declared.reply.Reply.TheVariants.{Done as DoneReply};
ghost use Rattle.step_rules.specs.SeatData.{IsOf, IsSeat};
ghost use Rattle.step_rules.specs.Steps.{DropsNoted, HoldsFront};
ghost use Rattle.step_rules.specs.Versions.{FoundVersion};
ghost use Rattle.step_rules.specs.declared.view.Stage.TheVariants.{Locked};

use crate::answers::Install;
use crate::changing::{exchange, ready_node};
use crate::claiming::{look_first, read_record, try_claim};
use crate::starting::{Turn, begin_turn};
use cache_copy::begin;
use hazard_claims::{Claim, Recheck, announce};
use seat_history::{Call, Rec};
use step_rules::{
    NODE_WIDTH, Seat, Shared, backup_load, inline_load, inline_store, mark_clear, node_glance,
    version_load, version_lock, version_release,
};

/// Half of a node's words.
const HALF: u32 = NODE_WIDTH as u32 / 2;

/// Behind which of its steps a seat is dropped.
#[derive(Clone, Copy, Debug, Drop, PartialEq, Eq)]
pub(super) enum Stop {
    /// None: it was split off, and made no call.
    Split,
    /// Of a load by the inline words.
    Read(Reading),
    /// Of a load by a claim.
    Claim(Claiming),
    /// The version load that begins a store.
    Begun,
    /// Of that store's claim, which comes then.
    Turn(Claiming),
    /// Of the store's second half.
    Store(Storing),
}

/// Behind which step of a read of the inline words.
#[derive(Clone, Copy, Debug, Drop, PartialEq, Eq)]
pub(super) enum Reading {
    Version,
    HalfOfWords,
    Backup,
}

/// Behind which step of a read by a claim.
#[derive(Clone, Copy, Debug, Drop, PartialEq, Eq)]
pub(super) enum Claiming {
    Announced,
    Rechecked,
    WordsRead,
}

/// Behind which step of a store that has claimed its register's node.
#[derive(Clone, Copy, Debug, Drop, PartialEq, Eq)]
pub(super) enum Storing {
    /// The new node is filled.
    Filled,
    /// It is announced in Own.
    Announced,
    Exchanged,
    Locked,
    /// Half of the inline words are the new ones.
    HalfCopied,
    /// The lock is released, and the mark stands.
    Released,
    /// The mark is cleared, and Own still announced.
    Unmarked,
}

/// Makes a call's steps up to the stop, a store's for this record, and drops the seat. Whether it came so
/// far.
pub(super) fn drop_at(shared: &Shared, seat: Seat, new: Rec, stop: Stop) -> bool
    requires ready { IsReady shared.now seat }
    requires there { 0 < shared.now.plan.registers }
    requires left { 0 < seat.view.changes }
{
    let mut seat = seat;
    match stop {
        Stop::Split => true,
        Stop::Read(at) => read_until(shared, &mut seat, at),
        Stop::Claim(at) => claim_until(shared, &mut seat, at),
        Stop::Begun => {
            begin(shared, &mut seat, 0);
            true
        }
        Stop::Turn(at) => turn_until(shared, &mut seat, at),
        Stop::Store(at) => store_until(shared, &mut seat, new, at),
    }
}

// A read of the inline words.
fn read_until(shared: &Shared, seat: &mut Seat, at: Reading) -> bool
    requires ours { IsOf shared.now seat.old }
    requires there { 0 < shared.now.plan.registers }
{
    let version = version_load(shared, seat, 0);
    if at == Reading::Version {
        return true;
    }
    if version % 2 == 1 {
        return false;
    }
    for j in 0..NODE_WIDTH as u32 {
        if at == Reading::HalfOfWords && j == HALF {
            return true;
        }
        inline_load(shared, seat, 0, j);
    }
    backup_load(shared, seat, 0);
    true
}

// A read by a claim.
fn claim_until(shared: &Shared, seat: &mut Seat, at: Claiming) -> bool
    requires ours { IsOf shared.now seat.old }
    requires there { 0 < shared.now.plan.registers }
    requires law { IsSeat seat.old }
{
    if at == Claiming::Announced {
        let seen = look_first(shared, seat, 0);
        announce(shared, seat, Claim::Back, (seen / 2) as u32);
        return true;
    }
    let Recheck::Same(word) = try_claim(shared, seat, Claim::Back, 0) else {
        return false;
    };
    if at == Claiming::WordsRead {
        read_record(shared, seat, (word / 2) as u32);
    }
    true
}

// A store's version load and claim.
fn turn_until(shared: &Shared, seat: &mut Seat, at: Claiming) -> bool
    requires ours { IsOf shared.now seat.old }
    requires there { 0 < shared.now.plan.registers }
{
    begin(shared, seat, 0);
    claim_until(shared, seat, at)
}

// A store of one turn.
fn store_until(shared: &Shared, seat: &mut Seat, new: Rec, at: Storing) -> bool
    requires ready { IsReady shared.now seat.old }
    requires there { 0 < shared.now.plan.registers }
    requires left { 0 < seat.old.view.changes }
{
    let call = Call::Store { reg: 0, new };
    let turn = begin_turn(shared, seat, 0, None);
    give_until(shared, seat, turn, new, call, at)
}

// Its second half, once the register's node is claimed.
fn give_until(
    shared: &Shared,
    seat: &mut Seat,
    turn: Turn,
    new: Rec,
    call: Call,
    at: Storing,
) -> bool
    requires past { (b : Begun shared.now 0 new DoneReply call) × Knows b (Decided turn.version turn.word turn.rec turn.kept) seat.old }
{
    if turn.rec == new {
        return false;
    }
    let Some(node) = ready_node(shared, seat, turn.kept, new) else {
        return false;
    };
    if at == Storing::Filled {
        return true;
    }
    install_until(shared, seat, turn.version, turn.word, node, call, at)
}

// Its install.
fn install_until(
    shared: &Shared,
    seat: &mut Seat,
    version: u64,
    seen: u64,
    node: u32,
    call: Call,
    at: Storing,
) -> bool
    requires ours { IsOf shared.now seat.old }
    requires may { MayInstall 0 seen node call seat.old.view }
    requires front { HoldsFront node call seat.old }
    requires noted { DropsNoted call seat.old }
    requires found { HasNear 0 seen seat.old.view }
    requires begun { HasBegun 0 version seen seat.old.view }
    requires unlocked { seat.old.view.writer.stage ≢ Locked }
{
    announce(shared, seat, Claim::Own, node);
    if at == Storing::Announced {
        return true;
    }
    let answer = exchange(shared, seat, 0, seen, node, call);
    let Install::Moved(_) = answer else {
        return at == Storing::Exchanged || refresh_until(shared, seat, node, version, at);
    };
    false
}

// The refresh of a change in flight.
fn refresh_until(shared: &Shared, seat: &mut Seat, node: u32, version: u64, at: Storing) -> bool
    requires ours { IsOf shared.now seat.old }
    requires flight { IsInFlight 0 node seat.old.view }
    requires found { FoundVersion 0 version seat.old.view.writer.before }
{
    if version % 2 == 1 || version >= 1 << 63 {
        return false;
    }
    let found = version_lock(shared, seat, 0, version);
    if found != version {
        return false;
    }
    if at == Storing::Locked {
        return true;
    }
    for j in 0..NODE_WIDTH as u32 {
        if at == Storing::HalfCopied && j == HALF {
            return true;
        }
        let word = node_glance(shared, seat, node, j);
        inline_store(shared, seat, 0, j, word);
    }
    version_release(shared, seat, 0, version);
    if at == Storing::Released {
        return true;
    }
    mark_clear(shared, seat, 0, node) == 2 * u64::from(node) + 1
}
