// What the definitions come to. A law is a function with nothing to do.
ghost use Rattle.std.specs.Prelude.{◌≡◌, ◌≢◌, ◌+◌, ◌<◌, ◌^◌, ◌↔◌, All, IsTrue, List, ℕ, Option};
ghost use Rattle.std.specs.Ordering.{nat_cmp, ordering_then};
ghost use Rattle.seat_history.specs.Change.{Changes, is_change};
ghost use Rattle.seat_history.specs.Contents.{Contents};
ghost use Rattle.seat_history.specs.Key.{key_number};
ghost use Rattle.seat_history.specs.Pairs.{ArePairsOf, IsPairInRange, Pairs};
ghost use Rattle.seat_history.specs.Step.{reply_to};
ghost use Rattle.seat_history.specs.declared.call.Call.{Call};
ghost use Rattle.seat_history.specs.declared.key.KeyWords.{KeyWords};
ghost use Rattle.seat_history.specs.declared.reply.Reply.TheVariants.{Full};

use crate::words::{VALUE_WIDTH, WIDTH};

/// The test of a change tells just the calls that leave other contents.
pub fn change_is_told()
    ensures { (contents : Contents) (call : Call) → IsTrue (is_change contents call) ↔ Changes contents call }
{}

/// Nothing is full on one thread.
pub fn never_full()
    ensures { (contents : Contents) (held : Option (List ℕ)) (call : Call) (need free : ℕ) → reply_to contents held call ≢ Full need free }
{}

/// A key's two words and its value's are as many as a record's.
pub fn pair_fills_record()
    ensures { VALUE_WIDTH + 2 ≡ WIDTH }
{}

/// The keys' numbers are in the keys' order: by `k0`, and then by `k1`.
pub fn key_order_is_kept()
    ensures { (a b : KeyWords) → a.k1 < 2 ^ 64 → b.k1 < 2 ^ 64
        → nat_cmp (key_number a) (key_number b) ≡ ordering_then (nat_cmp a.k0 b.k0) (nat_cmp a.k1 b.k1) }
{}

/// Values have one list of pairs, by rising key.
pub fn pairs_are_one()
    ensures { (values : ℕ → Option (List ℕ)) (pairs others : Pairs) → ArePairsOf values pairs → ArePairsOf values others
        → All IsPairInRange pairs → All IsPairInRange others → pairs ≡ others }
{}
