//! Changes of a key's pair: the turns of inserts, replaces and removes.
ghost use Rattle.std.specs.Prelude.{◌<◌, ◌≡◌, ◌≤◌};
ghost use Rattle.big_atomic.specs.Ready.{IsReady};
ghost use Rattle.cache_hash.specs.Asking.{HasEnded, Only, call_for};
ghost use Rattle.cache_hash.specs.Changing.{Begun, CameBy, HasCome, HasDecided, HasTurned, IsAtTurn, IsDue, KnowsEnd, MakesRoom, MayAsk, MayMake, TurnsBy};
ghost use Rattle.step_rules.specs.History.{IsWide};
ghost use Rattle.step_rules.specs.Records.{removes_of};
ghost use Rattle.step_rules.specs.SeatData.{IsOf, IsSeat};

use crate::asked::{
    Asked, Change, Decision, Due, Told, call_of, decide_absent, decide_there, reply_told,
};
use crate::cells::bucket_cell;
use crate::turns::Turn;
use big_atomic::{Install, Start, answer_now, claim_versioned, install};
use chain_links::{Front, Walk, copy_front, walk};
use hazard_claims::{Claim, clear_walk, release, scan};
use seat_history::KeyWords;
use step_rules::{Seat, Shared};

/// Makes the change where the key's value says so and enough nodes are free. Each further turn has a
/// change of another caller to the key's bucket.
#[inline(always)]
pub(crate) fn change(shared: &Shared, seat: &mut Seat, key: KeyWords, change: Change) -> Told
    requires ready { IsReady shared.now seat.old }
    requires some { 0 < shared.now.plan.buckets }
    requires left { 0 < seat.old.view.changes }
    requires removes { removes_of (call_for key change) ≤ seat.old.view.removes }
    requires wide { IsWide (call_for key change) }
    ensures ready { IsReady shared.now seat.new }
    ensures ended { HasEnded key (Only change) change result seat.old seat.new }
{
    let cell = bucket_cell(shared, key);
    let asked = Asked { key, change, cell };
    let mut start = claim_versioned(shared, seat, cell);
    let mut scanned = false;
    'turns: loop {
        match try_change(shared, seat, asked, start, scanned) {
            Turn::Ends(told) => return told,
            Turn::Moved { scanned: made } => scanned = made,
        }
        start = claim_versioned(shared, seat, cell);
    }
}

// One turn, with the bucket's version found and its node claimed: looks for the key, and goes on as its value says.
#[inline(always)]
fn try_change(shared: &Shared, seat: &mut Seat, asked: Asked, start: Start, scanned: bool) -> Turn
    requires past { (b : Begun shared.now asked.key) × CameBy (Only asked.change) b × MayAsk asked.key asked.change b.before × IsAtTurn b asked.cell start scanned seat.old }
    ensures turned { (b : Begun shared.now asked.key) → CameBy (Only asked.change) b → MayAsk asked.key asked.change b.before → IsAtTurn b asked.cell start scanned seat.old
        → TurnsBy (Only asked.change) b asked.cell result seat.old seat.new }
{
    match walk(shared, seat, asked.cell, asked.key) {
        Walk::Found { at, val } => {
            let decision = decide_there(asked, at, val);
            go_on(shared, seat, asked, start, decision, scanned)
        }
        Walk::End { length } => {
            let decision = decide_absent(asked, length);
            go_on(shared, seat, asked, start, decision, scanned)
        }
        Walk::Moved => Turn::Moved { scanned },
    }
}

// Ends the call where the object is to stay as it is, and changes it else.
#[inline(always)]
pub(crate) fn go_on(
    shared: &Shared,
    seat: &mut Seat,
    asked: Asked,
    start: Start,
    decision: Decision,
    scanned: bool,
) -> Turn
    requires past { (b : Begun shared.now asked.key) × HasDecided b asked.cell start asked.change decision scanned seat.old }
    ensures turned { (b : Begun shared.now asked.key) → HasDecided b asked.cell start asked.change decision scanned seat.old
        → HasTurned b asked.cell result seat.old seat.new }
{
    match decision {
        Decision::Stays { there } => {
            let told = Told::Plain { there };
            tell(shared, seat, asked, told);
            Turn::Ends(told)
        }
        Decision::Changes { due } => make_change(shared, seat, asked, start, due, scanned),
    }
}

// Makes the change where so many nodes are free. Scans first where fewer are, at most once in a call.
#[inline(always)]
fn make_change(
    shared: &Shared,
    seat: &mut Seat,
    asked: Asked,
    start: Start,
    due: Due,
    scanned: bool,
) -> Turn
    requires past { (b : Begun shared.now asked.key) × IsDue b asked.cell start asked.change due scanned seat.old }
    ensures turned { (b : Begun shared.now asked.key) → IsDue b asked.cell start asked.change due scanned seat.old
        → HasTurned b asked.cell result seat.old seat.new }
{
    let made = make_room(shared, seat, due.need, scanned);
    let free = seat.free();
    let need = due.need;
    if free < need {
        let told = Told::Full { need, free };
        tell(shared, seat, asked, told);
        return Turn::Ends(told);
    }
    install_change(shared, seat, asked, start, due, made)
}

// Scans where fewer nodes are free than are needed and the call hasn't scanned yet, and answers whether
// it has then.
#[inline(always)]
fn make_room(shared: &Shared, seat: &mut Seat, need: u32, scanned: bool) -> bool
    requires ours { IsOf shared.now seat.old }
    requires law { IsSeat seat.old }
    ensures room { MakesRoom need scanned result seat.old seat.new }
    ensures law { IsSeat seat.new }
{
    if scanned || seat.free() >= need {
        return scanned;
    }
    scan(shared, seat);
    true
}

// Copies the front of the claimed chain with the change in it and installs it, where enough nodes are
// free.
#[inline(always)]
fn install_change(
    shared: &Shared,
    seat: &mut Seat,
    asked: Asked,
    start: Start,
    due: Due,
    scanned: bool,
) -> Turn
    requires past { (b : Begun shared.now asked.key) × MayMake b asked.cell start asked.change due scanned seat.old }
    ensures turned { (b : Begun shared.now asked.key) → MayMake b asked.cell start asked.change due scanned seat.old
        → HasTurned b asked.cell result seat.old seat.new }
{
    let Front::Ready { node } = copy_front(shared, seat, asked.cell, due.edit) else {
        return Turn::Moved { scanned };
    };
    let call = call_of(asked);
    let version = start.version;
    let installed = install(shared, seat, asked.cell, version, start.word, node, call);
    let Install::Installed = installed else {
        return Turn::Moved { scanned };
    };
    clear_walk(shared, seat);
    release(shared, seat, Claim::Back);
    let there = due.there;
    Turn::Ends(Told::Plain { there })
}

// Clears Walk and Back, and adds the stand of an end without a change, at the end of what the seat has
// seen.
#[inline(always)]
fn tell(shared: &Shared, seat: &mut Seat, asked: Asked, told: Told)
    requires past { (b : Begun shared.now asked.key) × KnowsEnd b asked.cell asked.change told seat.old }
    ensures ends { (b : Begun shared.now asked.key) → KnowsEnd b asked.cell asked.change told seat.old
        → IsReady shared.now seat.new × HasEnded asked.key (HasCome b.came) asked.change told b.before seat.new }
{
    clear_walk(shared, seat);
    let reply = reply_told(asked.change, told);
    answer_now(shared, seat, call_of(asked), reply);
}
