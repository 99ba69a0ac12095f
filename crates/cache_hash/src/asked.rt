//! What is asked of a key's pair, what a turn decides, and what the call is told in the end.
ghost use Rattle.std.specs.Prelude.{◌≡◌, ◌≢◌, ◌+◌, ◌<◌, ◌^◌, List, Some, None, ℕ, length};
ghost use Rattle.cache_hash.specs.Asking.{Decides, call_for, plain_reply, put_change, told_reply};
ghost use Rattle.seat_history.specs.Key.{key_number};
ghost use Rattle.seat_history.specs.declared.words.TheConstants.{VALUE_WIDTH};
ghost use Rattle.step_rules.specs.History.{AreWords};
ghost use Rattle.step_rules.specs.Records.{place_in};

use chain_links::Edit;
use seat_history::{Call, KeyWords, Reply, ValWords};

/// A change of a key's pair.
#[derive(Clone, Copy, Drop)]
pub(crate) enum Change {
    /// The pair is to be there where the key isn't.
    Insert { val: ValWords },
    /// The value is to be the new one where it is the old one.
    Replace { old: ValWords, new: ValWords },
    /// The pair is to fall out where the key is there.
    Remove,
}

/// The change that is asked for, its key, and the cell of the key's bucket.
#[derive(Clone, Copy, Drop)]
pub(crate) struct Asked {
    pub(crate) key: KeyWords,
    pub(crate) change: Change,
    pub(crate) cell: u32,
}

/// A change that is to be made: the key's value before it, the nodes that it needs, and the edit of the
/// claimed chain that it is.
#[derive(Clone, Copy, Drop)]
pub(crate) struct Due {
    pub(crate) there: Option<ValWords>,
    pub(crate) need: u32,
    pub(crate) edit: Edit,
}

/// What a turn decides where it knows the key's value.
#[derive(Clone, Copy, Drop)]
pub(crate) enum Decision {
    /// The object stays as it is, and this is the key's value.
    Stays { there: Option<ValWords> },
    /// The object is to change.
    Changes { due: Due },
}

/// How a call ends.
#[derive(Clone, Copy, Drop)]
pub(crate) enum Told {
    /// As the key's value says, which was this at the call's place in the history.
    Plain { there: Option<ValWords> },
    /// Without the change that was to be made, since fewer nodes are free than it needs.
    Full { need: u32, free: u32 },
}

/// The change by which a key that has this value gets another: an insert where it has none.
pub(crate) fn change_to(there: Option<ValWords>, val: ValWords) -> Change
    ensures change { result ≡ put_change there val }
    ensures words { AreWords VALUE_WIDTH val }
{
    match there {
        None => Change::Insert { val },
        Some(old) => Change::Replace { old, new: val },
    }
}

/// The call that is asked for.
pub(crate) fn call_of(asked: Asked) -> Call
    ensures { result ≡ call_for asked.key asked.change }
{
    let key = asked.key;
    match asked.change {
        Change::Insert { val } => Call::Insert { key, val },
        Change::Replace { old, new } => Call::Replace { key, old, new },
        Change::Remove => Call::Remove { key },
    }
}

/// The reply of a call that ends so.
pub(crate) fn reply_told(change: Change, told: Told) -> Reply
    ensures { result ≡ told_reply change told }
{
    match told {
        Told::Plain { there } => reply_by(change, there),
        Told::Full { need, free } => Reply::Full { need, free },
    }
}

// The reply where the key has this value.
fn reply_by(change: Change, there: Option<ValWords>) -> Reply
    ensures { result ≡ plain_reply change there }
{
    match change {
        Change::Insert { val: _ } => match there {
            None => Reply::Done,
            Some(val) => Reply::Present(val),
        },
        Change::Replace { old, new: _ } => match there {
            None => Reply::Absent,
            Some(val) => {
                if val == old {
                    Reply::Yes
                } else {
                    Reply::Found(val)
                }
            }
        },
        Change::Remove => match there {
            None => Reply::Absent,
            Some(val) => Reply::Gone(val),
        },
    }
}

/// What is to be done where the key's record stands at this place, with this value.
pub(crate) fn decide_there(asked: Asked, at: u32, val: ValWords) -> Decision
    requires few { at + 1 < 2 ^ 32 }
    ensures decides { (rs : List (List ℕ)) → place_in rs (key_number asked.key) ≡ at → Decides asked.key asked.change (Some val) rs result }
{
    let there = Some(val);
    let stays = Decision::Stays { there };
    match asked.change {
        Change::Insert { val: _ } => stays,
        Change::Replace { old, new } => {
            if val != old || old == new {
                return stays;
            }
            let edit = Edit::Replace { at, val: new };
            let need = at + 1;
            let due = Due { there, need, edit };
            Decision::Changes { due }
        }
        Change::Remove => {
            let edit = Edit::Remove { at };
            let need = need_without(at);
            let due = Due { there, need, edit };
            Decision::Changes { due }
        }
    }
}

/// What is to be done where the key isn't there, beside so many records.
pub(crate) fn decide_absent(asked: Asked, count: u32) -> Decision
    ensures decides { (rs : List (List ℕ)) → length rs ≡ count → Decides asked.key asked.change None rs result }
{
    let there = None;
    match asked.change {
        Change::Insert { val } => {
            let edit = Edit::Insert {
                key: asked.key,
                val,
            };
            let need = need_beside(count);
            let due = Due { there, need, edit };
            Decision::Changes { due }
        }
        _ => Decision::Stays { there },
    }
}

// How many nodes an insert needs beside so many records.
fn need_beside(count: u32) -> u32
    ensures none { count ≡ 0 → result ≡ 1 }
    ensures some { count ≢ 0 → result ≡ 2 }
{
    if count == 0 { 1 } else { 2 }
}

// How many nodes the removal of the record at this place needs.
fn need_without(at: u32) -> u32
    ensures first { at ≡ 0 → result ≡ 1 }
    ensures later { at ≢ 0 → result ≡ at }
{
    if at == 0 { 1 } else { at }
}
