//! What the inline words of a bucket tell of a key.
ghost use Rattle.std.specs.Prelude.{List, ℕ, ◌<◌};
ghost use Rattle.cache_hash.specs.Firsts.{HasReadFirst, TellsFirst};
ghost use Rattle.step_rules.specs.Layout.{cells};
ghost use Rattle.step_rules.specs.Readers.{IsFirst};
ghost use Rattle.step_rules.specs.SeatData.{IsOf, IsSeat};

use cache_copy::{Inline, read_inline};
use chain_links::{has_key, value_of};
use node_pool::NodeWords;
use seat_history::{KeyWords, ValWords, WIDTH};
use step_rules::{END, Seat, Shared};

/// What the words of a bucket's first node tell of a key.
#[derive(Clone, Copy, Drop)]
pub(crate) enum First {
    /// The first record has the key, and this value.
    Here(ValWords),
    /// No record has it.
    Absent,
    /// The first record has another key, and there are more.
    Beyond,
}

/// Reads the inline words of a key's bucket. Beyond comes also where they can't be read.
pub(crate) fn read_first(shared: &Shared, seat: &mut Seat, cell: u32, key: KeyWords) -> First
    requires ours { IsOf shared.now seat.old }
    requires there { cell < cells shared.now.plan }
    ensures first { HasReadFirst cell key result seat.old seat.new }
    ensures law { IsSeat seat.new }
{
    match read_inline(shared, seat, cell) {
        Inline::Words(words) => first_of(words, key),
        _ => First::Beyond,
    }
}

// What the words of a first node tell of a key.
fn first_of(words: NodeWords, key: KeyWords) -> First
    ensures tells { (rs : List (List ℕ)) → IsFirst rs words → TellsFirst key words rs result }
{
    let next = words[WIDTH];
    if next == END {
        return First::Absent;
    }
    if has_key(&words, key) {
        return First::Here(value_of(&words));
    }
    if next == 0 {
        return First::Absent;
    }
    First::Beyond
}
