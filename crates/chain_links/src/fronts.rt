//! Copies of a chain's front.
ghost use Rattle.std.specs.Prelude.{◌≡◌, ◌++◌, ◌∷◌, ◌<◌, ◌≢◌, [], length, slice_index};
ghost use Rattle.chain_links.specs.Copying.{HasFree, HoldsCopy, IsCopied, IsPlace, IsPut, PutsBeside};
ghost use Rattle.chain_links.specs.Walking.{HasBack, MadeNoChange};
ghost use Rattle.chain_links.specs.declared.answers.Edit.TheVariants.{Insert};
ghost use Rattle.seat_history.specs.declared.words.TheConstants.{WIDTH};
ghost use Rattle.step_rules.specs.Records.{pair, put};
ghost use Rattle.step_rules.specs.SeatData.{IsOf, IsSeat};
ghost use Rattle.step_rules.specs.declared.layout.TheConstants.{END};

use crate::answers::{Edit, Front};
use crate::links::{copy_removed, copy_replaced};
use crate::pages::words_of;
use hazard_claims::Claim;
use node_pool::{NodeWords, fill, node_words, take};
use seat_history::{KeyWords, ValWords, WIDTH};
use step_rules::{END, Seat, Shared};

/// Copies the front of the chain that the seat's Back claim stands on, with the edit made in it, to
/// nodes of the seat's own, and notes the links that fall out.
///
/// An insert reads the claimed first node alone: into an empty bucket it takes one node, and beside
/// other records two, of which the second is a copy of that node. It is always Ready. A replace copies
/// the records before its place, and the one there with the new value; a remove copies those before its
/// place, or where that is the first the one after it. These two read each node once, in the chain's
/// order. Moved comes only where the cell was found to name another node, which another caller's change
/// has put there since the claim's recheck; then every node that was taken is free again.
#[inline(always)]
pub fn copy_front(shared: &Shared, seat: &mut Seat, cell: u32, edit: Edit) -> Front
    requires ours { IsOf shared.now seat.old }
    requires back { HasBack cell seat.old.view }
    requires unchanged { MadeNoChange cell seat.old.view }
    requires idle { seat.old.holding ≡ [] }
    requires unnoted { seat.old.noted ≡ [] }
    requires place { IsPlace edit seat.old.view }
    requires free { HasFree edit seat.old }
    ensures copied { IsCopied cell edit result seat.old seat.new }
    ensures law { IsSeat seat.new }
{
    match edit {
        Edit::Insert { key, val } => {
            let node = copy_inserted(shared, seat, cell, key, val);
            Front::Ready { node }
        }
        Edit::Replace { at, val } => copy_replaced(shared, seat, cell, at, val),
        Edit::Remove { at } => copy_removed(shared, seat, cell, at),
    }
}

// Puts a pair before all records of the claimed chain.
fn copy_inserted(shared: &Shared, seat: &mut Seat, _cell: u32, key: KeyWords, val: ValWords) -> u32
    requires ours { IsOf shared.now seat.old }
    requires back { HasBack _cell seat.old.view }
    requires idle { seat.old.holding ≡ [] }
    requires free { HasFree (Insert key val) seat.old }
    ensures copied { HoldsCopy result (put (pair key val)) seat.old seat.new }
    ensures law { IsSeat seat.new }
{
    let first = seat.claim_word(Claim::Back.number()) - 1;
    let words = node_words(shared, seat, first as u32);
    put_before(shared, seat, words, key, val)
}

// Puts a record before the one that a node with these words has, of which a copy goes behind it.
fn put_before(
    shared: &Shared,
    seat: &mut Seat,
    first: NodeWords,
    key: KeyWords,
    val: ValWords,
) -> u32
    requires ours { IsOf shared.now seat.old }
    requires one { slice_index first WIDTH ≡ END → 0 < length seat.old.free }
    requires two { slice_index first WIDTH ≢ END → 1 < length seat.old.free }
    requires law { IsSeat seat.old }
    ensures alone { slice_index first WIDTH ≡ END → IsPut result (pair key val ++ 0 ∷ []) seat.old seat.new }
    ensures beside { slice_index first WIDTH ≢ END → PutsBeside result (pair key val) first seat.old seat.new }
    ensures law { IsSeat seat.new }
{
    if first[WIDTH] == END {
        return put(shared, seat, words_of(key, val, 0));
    }
    let copy = put(shared, seat, first);
    put(shared, seat, words_of(key, val, u64::from(copy) + 1))
}

// Takes a free node and fills it.
fn put(shared: &Shared, seat: &mut Seat, words: NodeWords) -> u32
    requires ours { IsOf shared.now seat.old }
    requires free { 0 < length seat.old.free }
    requires law { IsSeat seat.old }
    ensures put { IsPut result words seat.old seat.new }
    ensures law { IsSeat seat.new }
{
    let node = take(shared, seat);
    fill(shared, seat, node, words);
    node
}
