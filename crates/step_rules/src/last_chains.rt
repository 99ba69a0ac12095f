//! The pairs of a bucket, as the words of a closed object have them.
ghost use Rattle.std.specs.Mem.Slots.{slots_items, slots_len, IsFull};
ghost use Rattle.std.specs.Prelude.{◌≡◌, ◌≤◌, ◌<◌, ◌+◌, ◌*◌, ◌^◌, List, OnOk, take, drop};
ghost use Rattle.seat_history.specs.Plain.{found_in};
ghost use Rattle.seat_history.specs.declared.words.TheConstants.{WIDTH};
ghost use Rattle.step_rules.specs.Closing.{IsChainAt, with_records};
ghost use Rattle.step_rules.specs.Records.{pair, records_of};
ghost use Rattle.step_rules.specs.declared.layout.TheConstants.{NODE_WIDTH};
ghost use Rattle.step_rules.specs.declared.view.Held.{Held};

use crate::layout::{END, NODE_WIDTH};
use seat_history::{Call, KeyWords, PairMap, VALUE_WIDTH, ValWords, WIDTH};
use std::alloc::Global;
use wire_ports::NoMemory;

/// The words of a table that no thread shares any more.
pub(crate) type Words = atomic_table::Closed<Call, Global>;

// The key and the value of the record that begins at a place.
fn pair_at(words: &Words, first: usize) -> (KeyWords, ValWords)
    requires full { IsFull words.now.words }
    requires there { first + WIDTH ≤ slots_len words.now.words }
    ensures pair { pair result.0 result.1 ≡ take WIDTH (drop first (slots_items words.now.words)) }
{
    let key = KeyWords {
        k0: words.word(first),
        k1: words.word(first + 1),
    };
    let mut val = [0u64; VALUE_WIDTH];
    for j in 0..VALUE_WIDTH {
        val[j] = words.word(first + 2 + j);
    }
    (key, val)
}

/// Adds the pairs of a chain to a map, from its first node on. The nodes' words begin at `start`.
pub(crate) fn read_chain(
    words: &Words,
    start: usize,
    nodes: u32,
    first: u64,
    map: &mut PairMap,
) -> Result<(), NoMemory>
    requires full { IsFull words.now.words }
    requires wide { start + NODE_WIDTH * nodes ≤ slots_len words.now.words }
    requires small { start + NODE_WIDTH * nodes < 2 ^ 32 }
    requires chain { (chain : List Held) × IsChainAt (slots_items words.now.words) start nodes first chain }
    ensures read { OnOk result ((chain : List Held) → IsChainAt (slots_items words.now.words) start nodes first chain → found_in map.new ≡ with_records (found_in map.old) (records_of chain)) }
{
    let mut node = first;
    for _turn in 0..nodes {
        let place = start + NODE_WIDTH * node as usize;
        let next = words.word(place + WIDTH);
        if next == END {
            return Ok(());
        }
        let (key, val) = pair_at(words, place);
        map.insert(key, val)?;
        if next == 0 {
            return Ok(());
        }
        node = next - 1;
    }
    Ok(())
}
