//! Seats that make some steps of a call on a bucket, and are dropped.
ghost use Rattle.std.specs.Prelude.{◌≡◌, ◌≢◌, ◌<◌, ◌≤◌, false};
ghost use Rattle.big_atomic.specs.Installing.{HasNear, MayInstall};
ghost use Rattle.big_atomic.specs.Marks.{HasBegun};
ghost use Rattle.big_atomic.specs.Ready.{IsReady};
ghost use Rattle.cache_copy.specs.Refreshing.{IsInFlight};
ghost use Rattle.cache_hash.specs.Asking.{Only, call_for};
ghost use Rattle.cache_hash.specs.Changing.{Begun, CameBy, HasDecided, IsAtTurn, MayAsk, MayMake};
ghost use Rattle.step_rules.specs.History.{IsWide};
ghost use Rattle.step_rules.specs.Layout.{cells};
ghost use Rattle.step_rules.specs.Records.{removes_of};
ghost use Rattle.step_rules.specs.SeatData.{IsOf};
ghost use Rattle.step_rules.specs.Steps.{DropsNoted, HoldsFront};
ghost use Rattle.step_rules.specs.Versions.{FoundVersion};
ghost use Rattle.step_rules.specs.declared.view.Stage.TheVariants.{Locked};

use crate::asked::{Asked, Change, Decision, Due, call_of, decide_absent, decide_there};
use crate::cells::bucket_cell;
use big_atomic::{Start, claim_node, claim_versioned};
use chain_links::{Front, Walk, copy_front, walk};
use hazard_claims::{Claim, announce};
use seat_history::{Call, KeyWords, ValWords};
use step_rules::{
    NODE_WIDTH, Seat, Shared, backup_exchange, backup_load, inline_load, inline_store, mark_clear,
    node_glance, version_load, version_lock, version_release,
};

/// Half of a node's words.
const HALF: u32 = NODE_WIDTH as u32 / 2;

/// Behind which of its steps a seat is dropped.
#[derive(Clone, Copy, Debug, Drop, PartialEq, Eq)]
pub(super) enum Stop {
    /// None: it was split off, and made no call.
    Split,
    /// Of a find by the inline words.
    Read(Reading),
    /// The claim of a find on the bucket's first node.
    Claimed,
    /// Of a change.
    Change(Changing),
}

/// Behind which step of a read of the inline words.
#[derive(Clone, Copy, Debug, Drop, PartialEq, Eq)]
pub(super) enum Reading {
    Version,
    HalfOfWords,
    Backup,
}

/// Behind which step of a change.
#[derive(Clone, Copy, Debug, Drop, PartialEq, Eq)]
pub(super) enum Changing {
    /// The version is found, and the first node claimed.
    Claimed,
    /// The key's record, or the chain's end, is found.
    Walked,
    /// The chain's front is copied, with the change in it.
    Copied,
    /// The copy's first node is announced in Own.
    Announced,
    Exchanged,
    Locked,
    /// Half of the inline words are the new ones.
    HalfCopied,
    /// The lock is released, and the mark stands.
    Released,
    /// The mark is cleared, and the claims still announced.
    Unmarked,
}

/// Makes a call's steps on a key's bucket up to the stop, a change's for this one, and drops the seat.
/// Whether it came so far.
fn drop_at(shared: &Shared, seat: Seat, key: KeyWords, change: Change, stop: Stop) -> bool
    requires ready { IsReady shared.now seat }
    requires some { 0 < shared.now.plan.buckets }
    requires left { 0 < seat.view.changes }
    requires removes { removes_of (call_for key change) ≤ seat.view.removes }
    requires wide { IsWide (call_for key change) }
{
    let mut seat = seat;
    let cell = bucket_cell(shared, key);
    match stop {
        Stop::Split => true,
        Stop::Read(at) => read_until(shared, &mut seat, cell, at),
        Stop::Claimed => {
            claim_node(shared, &mut seat, Claim::Back, cell);
            true
        }
        Stop::Change(at) => change_until(shared, &mut seat, key, change, at),
    }
}

/// The same within an insert.
pub(super) fn drop_inserting(
    shared: &Shared,
    seat: Seat,
    key: KeyWords,
    val: ValWords,
    stop: Stop,
) -> bool
    requires ready { IsReady shared.now seat }
    requires some { 0 < shared.now.plan.buckets }
    requires left { 0 < seat.view.changes }
{
    drop_at(shared, seat, key, Change::Insert { val }, stop)
}

/// The same within a replace.
pub(super) fn drop_replacing(
    shared: &Shared,
    seat: Seat,
    key: KeyWords,
    old: ValWords,
    new: ValWords,
    stop: Stop,
) -> bool
    requires ready { IsReady shared.now seat }
    requires some { 0 < shared.now.plan.buckets }
    requires left { 0 < seat.view.changes }
{
    drop_at(shared, seat, key, Change::Replace { old, new }, stop)
}

/// The same within a remove.
pub(super) fn drop_removing(shared: &Shared, seat: Seat, key: KeyWords, stop: Stop) -> bool
    requires ready { IsReady shared.now seat }
    requires some { 0 < shared.now.plan.buckets }
    requires left { 0 < seat.view.changes }
    requires removes { 0 < seat.view.removes }
{
    drop_at(shared, seat, key, Change::Remove, stop)
}

// A read of the inline words.
fn read_until(shared: &Shared, seat: &mut Seat, cell: u32, at: Reading) -> bool
    requires ours { IsOf shared.now seat.old }
    requires there { cell < cells shared.now.plan }
{
    let version = version_load(shared, seat, cell);
    if at == Reading::Version {
        return true;
    }
    if version % 2 == 1 {
        return false;
    }
    for j in 0..NODE_WIDTH as u32 {
        if at == Reading::HalfOfWords && j == HALF {
            return true;
        }
        inline_load(shared, seat, cell, j);
    }
    backup_load(shared, seat, cell);
    true
}

// The first turn of a change.
fn change_until(
    shared: &Shared,
    seat: &mut Seat,
    key: KeyWords,
    change: Change,
    at: Changing,
) -> bool
    requires ready { IsReady shared.now seat.old }
    requires some { 0 < shared.now.plan.buckets }
    requires left { 0 < seat.old.view.changes }
    requires removes { removes_of (call_for key change) ≤ seat.old.view.removes }
    requires wide { IsWide (call_for key change) }
{
    let cell = bucket_cell(shared, key);
    let asked = Asked { key, change, cell };
    let start = claim_versioned(shared, seat, cell);
    at == Changing::Claimed || walk_until(shared, seat, asked, start, at)
}

// With the first node claimed: the walk, and on.
fn walk_until(shared: &Shared, seat: &mut Seat, asked: Asked, start: Start, at: Changing) -> bool
    requires past { (b : Begun shared.now asked.key) × CameBy (Only asked.change) b × MayAsk asked.key asked.change b.before × IsAtTurn b asked.cell start false seat.old }
{
    match walk(shared, seat, asked.cell, asked.key) {
        Walk::Found { at: place, val } => {
            let decision = decide_there(asked, place, val);
            decided_until(shared, seat, asked, start, decision, at)
        }
        Walk::End { length } => {
            let decision = decide_absent(asked, length);
            decided_until(shared, seat, asked, start, decision, at)
        }
        Walk::Moved => false,
    }
}

// With the key's value known: the change that is due, without a scan.
fn decided_until(
    shared: &Shared,
    seat: &mut Seat,
    asked: Asked,
    start: Start,
    decision: Decision,
    at: Changing,
) -> bool
    requires past { (b : Begun shared.now asked.key) × HasDecided b asked.cell start asked.change decision false seat.old }
{
    if at == Changing::Walked {
        return true;
    }
    let Decision::Changes { due } = decision else {
        return false;
    };
    seat.free() >= due.need && copy_until(shared, seat, asked, start, due, at)
}

// With enough nodes: the copy, and on.
fn copy_until(
    shared: &Shared,
    seat: &mut Seat,
    asked: Asked,
    start: Start,
    due: Due,
    at: Changing,
) -> bool
    requires past { (b : Begun shared.now asked.key) × MayMake b asked.cell start asked.change due false seat.old }
{
    let Front::Ready { node } = copy_front(shared, seat, asked.cell, due.edit) else {
        return false;
    };
    let call = call_of(asked);
    let cell = asked.cell;
    at == Changing::Copied || install_until(shared, seat, cell, start, node, call, at)
}

// The install.
fn install_until(
    shared: &Shared,
    seat: &mut Seat,
    cell: u32,
    start: Start,
    node: u32,
    call: Call,
    at: Changing,
) -> bool
    requires ours { IsOf shared.now seat.old }
    requires may { MayInstall cell start.word node call seat.old.view }
    requires front { HoldsFront node call seat.old }
    requires noted { DropsNoted call seat.old }
    requires found { HasNear cell start.word seat.old.view }
    requires begun { HasBegun cell start.version start.word seat.old.view }
    requires unlocked { seat.old.view.writer.stage ≢ Locked }
{
    announce(shared, seat, Claim::Own, node);
    if at == Changing::Announced {
        return true;
    }
    let found = backup_exchange(shared, seat, cell, start.word, node, call);
    if found != start.word {
        return false;
    }
    at == Changing::Exchanged || refresh_until(shared, seat, cell, node, start.version, at)
}

// The refresh of a change in flight.
fn refresh_until(
    shared: &Shared,
    seat: &mut Seat,
    cell: u32,
    node: u32,
    version: u64,
    at: Changing,
) -> bool
    requires ours { IsOf shared.now seat.old }
    requires flight { IsInFlight cell node seat.old.view }
    requires found { FoundVersion cell version seat.old.view.writer.before }
{
    if version % 2 == 1 || version >= 1 << 63 {
        return false;
    }
    let found = version_lock(shared, seat, cell, version);
    if found != version {
        return false;
    }
    if at == Changing::Locked {
        return true;
    }
    for j in 0..NODE_WIDTH as u32 {
        if at == Changing::HalfCopied && j == HALF {
            return true;
        }
        let word = node_glance(shared, seat, node, j);
        inline_store(shared, seat, cell, j, word);
    }
    version_release(shared, seat, cell, version);
    if at == Changing::Released {
        return true;
    }
    mark_clear(shared, seat, cell, node) == 2 * u64::from(node) + 1
}
