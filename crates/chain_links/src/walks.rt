//! Walks.
ghost use Rattle.std.specs.Prelude.{◌≡◌, ◌/◌, true};
ghost use Rattle.chain_links.specs.Walking.{HasBack, HasTurned, IsWalked, MadeNoChange};
ghost use Rattle.step_rules.specs.SeatData.{IsOf, IsSeat};
ghost use Rattle.step_rules.specs.Views.{claimed_pages};
ghost use Rattle.step_rules.specs.World.{has, nodes_of};

use crate::answers::Walk;
use crate::pages::{has_key, value_of};
use hazard_claims::{Claim, Recheck, announce, recheck};
use node_pool::{NodeWords, node_words};
use seat_history::{KeyWords, WIDTH};
use step_rules::{END, Seat, Shared};

/// Looks for a key on the chain that the seat's Back claim stands on. Each link is announced in Walk,
/// and read once the cell was found to name Back's node still. Moved comes only where it names another
/// one, which another caller's change has put there since the claim's recheck; the link announced last
/// stays in Walk. What is noted stays, too.
#[inline(always)]
pub fn walk(shared: &Shared, seat: &mut Seat, cell: u32, key: KeyWords) -> Walk
    requires ours { IsOf shared.now seat.old }
    requires back { HasBack cell seat.old.view }
    requires unchanged { MadeNoChange cell seat.old.view }
    ensures walked { IsWalked cell key result seat.old seat.new }
    ensures law { IsSeat seat.new }
{
    let first = seat.claim_word(Claim::Back.number()) - 1;
    let mut words = node_words(shared, seat, first as u32);
    let mut at = 0;
    'links: loop {
        let next = words[WIDTH];
        if next == END {
            return Walk::End { length: 0 };
        }
        if has_key(&words, key) {
            let val = value_of(&words);
            return Walk::Found { at, val };
        }
        if next == 0 {
            return Walk::End { length: at + 1 };
        }
        match read_link(shared, seat, cell, 2 * first, (next - 1) as u32) {
            None => return Walk::Moved,
            Some(found) => words = found,
        }
        at += 1;
    }
}

// Announces a link of the chain that the node of `seen` heads, looks at the cell again, and reads the
// link where the cell names that node still.
pub(crate) fn read_link(
    shared: &Shared,
    seat: &mut Seat,
    cell: u32,
    seen: u64,
    link: u32,
) -> Option<NodeWords>
    requires ours { IsOf shared.now seat.old }
    requires back { (back : HasBack cell seat.old.view) × (back.node ≡ seen / 2) }
    requires page { has (nodes_of (claimed_pages seat.old.view)) link ≡ true }
    requires law { IsSeat seat.old }
    ensures turned { HasTurned cell seen link result seat.old seat.new }
    ensures law { IsSeat seat.new }
{
    announce(shared, seat, Claim::Walk, link);
    match recheck(shared, seat, Claim::Walk, cell, seen) {
        Recheck::Other(_) => None,
        Recheck::Same(_) => Some(node_words(shared, seat, link)),
    }
}
