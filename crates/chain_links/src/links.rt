//! Copies along the claimed chain up to a place, whose record has a new value or falls out.
ghost use Rattle.std.specs.Prelude.{◌≡◌, ◌*◌, ◌<◌, ◌≤◌, ℕ, [], length};
ghost use Rattle.chain_links.specs.Following.{HasNext, IsCopiedTo, IsFollowed, IsRemoved, IsReplaced};
ghost use Rattle.chain_links.specs.Walking.{HasBack, MadeNoChange};
ghost use Rattle.step_rules.specs.Claims.{BACK, On};
ghost use Rattle.step_rules.specs.SeatData.{IsOf, IsSeat, NoneAnnounced};
ghost use Rattle.step_rules.specs.Views.{claim_of, claimed_records};

use crate::answers::Front;
use crate::copied::Copied;
use crate::pages::{no_record, valued, with_next};
use crate::walks::read_link;
use hazard_claims::Claim;
use node_pool::{NodeWords, fill, node_words, put_back_all, take};
use seat_history::{ValWords, WIDTH};
use step_rules::{Seat, Shared};

// Copies the records before the place `at`, and after them the record there with another value.
pub(crate) fn copy_replaced(
    shared: &Shared,
    seat: &mut Seat,
    cell: u32,
    at: u32,
    val: ValWords,
) -> Front
    requires ours { IsOf shared.now seat.old }
    requires back { HasBack cell seat.old.view }
    requires unchanged { MadeNoChange cell seat.old.view }
    requires idle { seat.old.holding ≡ [] }
    requires unnoted { seat.old.noted ≡ [] }
    requires within { at < length (claimed_records seat.old.view) }
    requires free { at < length seat.old.free }
    ensures replaced { IsReplaced cell at val result seat.old seat.new }
    ensures law { IsSeat seat.new }
{
    match copy_to(shared, seat, cell, at) {
        None => Front::Moved,
        Some(copied) => {
            fill(shared, seat, copied.last, valued(&copied.words, val));
            Front::Ready { node: copied.head }
        }
    }
}

// Copies the records before the place `at`, the last of which goes on to what the record there goes on
// to; or the record after the first.
pub(crate) fn copy_removed(shared: &Shared, seat: &mut Seat, cell: u32, at: u32) -> Front
    requires ours { IsOf shared.now seat.old }
    requires back { HasBack cell seat.old.view }
    requires unchanged { MadeNoChange cell seat.old.view }
    requires idle { seat.old.holding ≡ [] }
    requires unnoted { seat.old.noted ≡ [] }
    requires within { at < length (claimed_records seat.old.view) }
    requires one { 0 < length seat.old.free }
    requires free { at ≤ length seat.old.free }
    ensures removed { IsRemoved cell at result seat.old seat.new }
    ensures law { IsSeat seat.new }
{
    if at == 0 {
        return remove_first(shared, seat, cell);
    }
    remove_later(shared, seat, cell, at)
}

// The first record falls out: the one after it is copied, where there is one.
fn remove_first(shared: &Shared, seat: &mut Seat, cell: u32) -> Front
    requires ours { IsOf shared.now seat.old }
    requires back { HasBack cell seat.old.view }
    requires unchanged { MadeNoChange cell seat.old.view }
    requires idle { seat.old.holding ≡ [] }
    requires unnoted { seat.old.noted ≡ [] }
    requires within { 0 < length (claimed_records seat.old.view) }
    requires free { 0 < length seat.old.free }
    ensures removed { IsRemoved cell 0 result seat.old seat.new }
    ensures law { IsSeat seat.new }
{
    match copy_to(shared, seat, cell, 0) {
        None => Front::Moved,
        Some(copied) => {
            if copied.words[WIDTH] == 0 {
                fill(shared, seat, copied.last, no_record());
                return Front::Ready { node: copied.head };
            }
            match follow(shared, seat, cell, copied.words) {
                None => Front::Moved,
                Some(found) => {
                    fill(shared, seat, copied.last, found);
                    Front::Ready { node: copied.head }
                }
            }
        }
    }
}

// A record after the first falls out: the one before it goes on to what it went on to.
fn remove_later(shared: &Shared, seat: &mut Seat, cell: u32, at: u32) -> Front
    requires ours { IsOf shared.now seat.old }
    requires back { HasBack cell seat.old.view }
    requires unchanged { MadeNoChange cell seat.old.view }
    requires idle { seat.old.holding ≡ [] }
    requires unnoted { seat.old.noted ≡ [] }
    requires later { 0 < at }
    requires within { at < length (claimed_records seat.old.view) }
    requires free { at ≤ length seat.old.free }
    ensures removed { IsRemoved cell at result seat.old seat.new }
    ensures law { IsSeat seat.new }
{
    match copy_to(shared, seat, cell, at - 1) {
        None => Front::Moved,
        Some(copied) => match follow(shared, seat, cell, copied.words) {
            None => Front::Moved,
            Some(found) => {
                fill(
                    shared,
                    seat,
                    copied.last,
                    with_next(&copied.words, found[WIDTH]),
                );
                Front::Ready { node: copied.head }
            }
        },
    }
}

// Copies the records before the place `at`, each to a free node that goes on to the next one. None
// comes only where the cell was found to name another node; then no node is held.
fn copy_to(shared: &Shared, seat: &mut Seat, cell: u32, at: u32) -> Option<Copied>
    requires ours { IsOf shared.now seat.old }
    requires back { HasBack cell seat.old.view }
    requires unchanged { MadeNoChange cell seat.old.view }
    requires idle { seat.old.holding ≡ [] }
    requires unnoted { seat.old.noted ≡ [] }
    requires within { at < length (claimed_records seat.old.view) }
    requires free { at < length seat.old.free }
    ensures copied { IsCopiedTo cell at result seat.old seat.new }
    ensures law { IsSeat seat.new }
{
    let first = seat.claim_word(Claim::Back.number()) - 1;
    let mut words = node_words(shared, seat, first as u32);
    let head = take(shared, seat);
    let mut last = head;
    let mut done = 0;
    'links: while done < at {
        match follow(shared, seat, cell, words) {
            None => return None,
            Some(found) => {
                let next = take(shared, seat);
                fill(shared, seat, last, with_next(&words, u64::from(next) + 1));
                last = next;
                words = found;
                done += 1;
            }
        }
    }
    Some(Copied { head, last, words })
}

// Reads the link that a node's words go on to, and notes it. Where the cell was found to name another
// node, every held node is free again.
fn follow(shared: &Shared, seat: &mut Seat, cell: u32, words: NodeWords) -> Option<NodeWords>
    requires ours { IsOf shared.now seat.old }
    requires back { HasBack cell seat.old.view }
    requires next { HasNext words seat.old }
    requires room { length seat.old.noted < length seat.old.holding }
    requires unannounced { NoneAnnounced seat.old.holding seat.old.view }
    ensures followed { (first : ℕ) → On (claim_of BACK seat.old.view) first → IsFollowed cell (2 * first) words result seat.old seat.new }
    ensures law { IsSeat seat.new }
{
    let first = seat.claim_word(Claim::Back.number()) - 1;
    let link = (words[WIDTH] - 1) as u32;
    match read_link(shared, seat, cell, 2 * first, link) {
        None => {
            put_back_all(shared, seat);
            None
        }
        Some(found) => {
            seat.note_link(link);
            Some(found)
        }
    }
}
