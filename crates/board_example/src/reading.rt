//! Readings: records whose last word is the checksum of the others.
ghost use Rattle.std.specs.Prelude.{◌≡◌, ◌%◌, ◌^◌, sum, true};
ghost use Rattle.board_example.specs.Readings.{checksum_of, is_whole};

use big_atomic::{Rec, WIDTH};

/// An odd number, by which the words of a reading are made.
const MIX: u64 = 0x9e37_79b9_7f4a_7c15;

// The sum of words, modulo 2^64.
fn sum_of(words: &[u64]) -> u64
    ensures { result ≡ sum words.now % 2 ^ 64 }
{
    let mut total: u64 = 0;
    for word in words {
        total = total.wrapping_add(*word);
    }
    total
}

/// The sum of all words but the last, modulo 2^64.
pub(crate) fn checksum(words: &Rec) -> u64
    ensures { result ≡ checksum_of words.now }
{
    sum_of(&words[..WIDTH - 1])
}

/// Whether the last word is the checksum of the others.
pub(crate) fn whole(words: &Rec) -> bool
    ensures { result ≡ is_whole words.now }
{
    words[WIDTH - 1] == checksum(words)
}

/// A caller's reading of this round: the caller, the round, then each word the one two places before
/// it times an odd number, and the checksum.
pub(crate) fn reading(caller: u32, round: u32) -> Rec
    ensures { is_whole result ≡ true }
{
    let mut words = [0; WIDTH];
    words[0] = u64::from(caller);
    words[1] = u64::from(round);
    for j in 2..WIDTH - 1 {
        words[j] = words[j - 2].wrapping_mul(MIX);
    }
    words[WIDTH - 1] = checksum(&words);
    words
}
