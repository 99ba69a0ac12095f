//! Updates.
ghost use Rattle.std.specs.Prelude.{◌<◌, ◌≡◌};
ghost use Rattle.big_atomic.specs.Ready.{IsReady};
ghost use Rattle.cache_hash.specs.Asking.{Puts, update_answer};
ghost use Rattle.cache_hash.specs.Calls.{IsUpdated};
ghost use Rattle.cache_hash.specs.Changing.{Begun, CameBy, IsAtTurn, TurnsBy};

use crate::answers::Update;
use crate::asked::{Asked, Told, change_to, decide_absent, decide_there};
use crate::cells::bucket_cell;
use crate::changes::go_on;
use crate::turns::Turn;
use big_atomic::{Start, claim_versioned};
use chain_links::{Walk, walk};
use seat_history::{KeyWords, ValWords};
use step_rules::{Seat, Shared};

/// Gives a key the value that `f` gives for the one there, or for None where there is none, and answers
/// what was there. It is one change: each turn looks the key up under its claim, calls `f` once for what
/// it found, and makes the insert or the replace that is due; where `f` gives the value that is there,
/// nothing changes and no node is needed. A turn is lost only where another caller changed the key's
/// bucket, and the next one calls `f` anew. Full comes only where after a scan of this call fewer nodes
/// are free than are needed: for an insert one in an empty bucket and two beside other records, for a
/// replace those of all records up to the key's.
pub fn update<F: Fn(Option<ValWords>) -> ValWords>(
    shared: &Shared,
    seat: &mut Seat,
    key: KeyWords,
    f: F,
) -> Update
    requires ready { IsReady shared.now seat.old }
    requires some { 0 < shared.now.plan.buckets }
    requires left { 0 < seat.old.view.changes }
    requires callable { F.IsAlwaysCallable f }
    ensures ready { IsReady shared.now seat.new }
    ensures updated { IsUpdated key (λ there val. F.post f there val) result seat.old seat.new }
{
    let cell = bucket_cell(shared, key);
    let mut start = claim_versioned(shared, seat, cell);
    let mut scanned = false;
    'turns: loop {
        match try_update(shared, seat, key, cell, start, scanned, &f) {
            Turn::Ends(told) => return update_told(told),
            Turn::Moved { scanned: made } => scanned = made,
        }
        start = claim_versioned(shared, seat, cell);
    }
}

// One turn, with the bucket's version found and its node claimed: looks for the key, and goes on by what
// is given for its value.
fn try_update<F: Fn(Option<ValWords>) -> ValWords>(
    shared: &Shared,
    seat: &mut Seat,
    key: KeyWords,
    cell: u32,
    start: Start,
    scanned: bool,
    f: &F,
) -> Turn
    requires past { (b : Begun shared.now key) × CameBy (Puts (λ there val. F.post f.now there val)) b × IsAtTurn b cell start scanned seat.old }
    requires callable { F.IsAlwaysCallable f.now }
    ensures turned { (b : Begun shared.now key) → CameBy (Puts (λ there val. F.post f.now there val)) b → IsAtTurn b cell start scanned seat.old
        → TurnsBy (Puts (λ there val. F.post f.now there val)) b cell result seat.old seat.new }
{
    match walk(shared, seat, cell, key) {
        Walk::Found { at, val } => {
            let new = f(Some(val));
            let change = change_to(Some(val), new);
            let asked = Asked { key, change, cell };
            let decision = decide_there(asked, at, val);
            go_on(shared, seat, asked, start, decision, scanned)
        }
        Walk::End { length } => {
            let first = f(None);
            let insert = change_to(None, first);
            let asked = Asked {
                key,
                change: insert,
                cell,
            };
            let decision = decide_absent(asked, length);
            go_on(shared, seat, asked, start, decision, scanned)
        }
        Walk::Moved => Turn::Moved { scanned },
    }
}

// What an update answers.
fn update_told(told: Told) -> Update
    ensures { result ≡ update_answer told }
{
    match told {
        Told::Plain { there } => Update::Done { there },
        Told::Full { need, free } => Update::Full { need, free },
    }
}
