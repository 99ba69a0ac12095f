//! Finds.
ghost use Rattle.std.specs.Prelude.{◌<◌, ◌≡◌};
ghost use Rattle.big_atomic.specs.Ready.{IsReady};
ghost use Rattle.cache_hash.specs.Calls.{IsFound, find_reply};
ghost use Rattle.cache_hash.specs.Finding.{HasMissed, KnowsFirst, KnowsValue};
ghost use Rattle.step_rules.specs.SeatData.{SeatData};

use crate::cells::bucket_cell;
use crate::firsts::{First, read_first};
use big_atomic::{answer_now, claim_node, stand_now};
use chain_links::{Walk, walk};
use hazard_claims::{Claim, clear_walk};
use seat_history::{Call, KeyWords, Reply, ValWords};
use step_rules::{Seat, Shared};

/// The value of a key; None where it has none. The inline words of its bucket answer where they are
/// the first node's and tell; else it walks under a claim, and each further turn has a change of
/// another caller to the bucket.
pub fn find(shared: &Shared, seat: &mut Seat, key: KeyWords) -> Option<ValWords>
    requires ready { IsReady shared.now seat.old }
    requires some { 0 < shared.now.plan.buckets }
    ensures ready { IsReady shared.now seat.new }
    ensures found { IsFound key result seat.old seat.new }
{
    let cell = bucket_cell(shared, key);
    match read_first(shared, seat, cell, key) {
        First::Here(val) => {
            answer_first(shared, seat, key, Some(val));
            Some(val)
        }
        First::Absent => {
            answer_first(shared, seat, key, None);
            None
        }
        First::Beyond => find_claimed(shared, seat, cell, key),
    }
}

// Adds the stand of a find that the inline words answer, at the place where they were read.
fn answer_first(shared: &Shared, seat: &mut Seat, key: KeyWords, found: Option<ValWords>)
    requires past { (before : SeatData) × KnowsFirst shared.now key found before seat.old }
    ensures ends { (before : SeatData) → KnowsFirst shared.now key found before seat.old
        → IsReady shared.now seat.new × IsFound key found before seat.new }
{
    stand_now(shared, seat, Call::Find { key }, reply_of(found));
}

// Finds by claims what the inline words don't tell.
fn find_claimed(shared: &Shared, seat: &mut Seat, cell: u32, key: KeyWords) -> Option<ValWords>
    requires past { (before : SeatData) × HasMissed shared.now key cell before seat.old }
    ensures ends { (before : SeatData) → HasMissed shared.now key cell before seat.old
        → IsReady shared.now seat.new × IsFound key result before seat.new }
{
    claim_node(shared, seat, Claim::Back, cell);
    'turns: loop {
        match walk(shared, seat, cell, key) {
            Walk::Found { at: _, val } => {
                answer_find(shared, seat, key, Some(val));
                return Some(val);
            }
            Walk::End { length: _ } => {
                answer_find(shared, seat, key, None);
                return None;
            }
            Walk::Moved => {
                claim_node(shared, seat, Claim::Back, cell);
            }
        }
    }
}

// Clears Walk and Back, and adds the find's stand at the end of what the seat has seen.
fn answer_find(shared: &Shared, seat: &mut Seat, key: KeyWords, found: Option<ValWords>)
    requires past { (before : SeatData) × KnowsValue shared.now key found before seat.old }
    ensures ends { (before : SeatData) → KnowsValue shared.now key found before seat.old
        → IsReady shared.now seat.new × IsFound key found before seat.new }
{
    clear_walk(shared, seat);
    answer_now(shared, seat, Call::Find { key }, reply_of(found));
}

// The reply to a find.
fn reply_of(found: Option<ValWords>) -> Reply
    ensures { result ≡ find_reply found }
{
    match found {
        Some(val) => Reply::Val(val),
        None => Reply::Absent,
    }
}
