// What an answer says as a reply.
ghost use Rattle.std.specs.Prelude.{◌≡◌};
ghost use Rattle.big_atomic.specs.Calls.{store_reply, swap_reply};
ghost use Rattle.cache_hash.specs.Calls.{find_reply, insert_reply, removed_reply, replaced_reply};

use big_atomic::{Stored, Swap};
use cache_hash::{Insert, Remove, Replace, ValWords};
use seat_history::Reply;

/// The reply to a store.
pub(crate) fn stored(answer: Stored) -> Reply
    ensures { result ≡ store_reply answer }
{
    match answer {
        Stored::Done => Reply::Done,
        Stored::Full { need, free } => Reply::Full { need, free },
    }
}

/// The reply to a compare-and-swap.
pub(crate) fn swapped(answer: Swap) -> Reply
    ensures { result ≡ swap_reply answer }
{
    match answer {
        Swap::Yes => Reply::Yes,
        Swap::No => Reply::No,
        Swap::Full { need, free } => Reply::Full { need, free },
    }
}

/// The reply to a find.
pub(crate) fn found(answer: Option<ValWords>) -> Reply
    ensures { result ≡ find_reply answer }
{
    match answer {
        Some(val) => Reply::Val(val),
        None => Reply::Absent,
    }
}

/// The reply to an insert.
pub(crate) fn inserted(answer: Insert) -> Reply
    ensures { result ≡ insert_reply answer }
{
    match answer {
        Insert::Done => Reply::Done,
        Insert::Present(val) => Reply::Present(val),
        Insert::Full { need, free } => Reply::Full { need, free },
    }
}

/// The reply to a replace.
pub(crate) fn replaced(answer: Replace) -> Reply
    ensures { result ≡ replaced_reply answer }
{
    match answer {
        Replace::Yes => Reply::Yes,
        Replace::Found(val) => Reply::Found(val),
        Replace::Absent => Reply::Absent,
        Replace::Full { need, free } => Reply::Full { need, free },
    }
}

/// The reply to a remove.
pub(crate) fn removed(answer: Remove) -> Reply
    ensures { result ≡ removed_reply answer }
{
    match answer {
        Remove::Gone(val) => Reply::Gone(val),
        Remove::Absent => Reply::Absent,
        Remove::Full { need, free } => Reply::Full { need, free },
    }
}
