ghost use Rattle.std.specs.Prelude.{◌≡◌, ◌<◌};
ghost use Rattle.cache_copy.specs.Reading.{HasBegun, HasLoaded, OnlyRead, ReadsInline};
ghost use Rattle.step_rules.specs.Layout.{cells};
ghost use Rattle.step_rules.specs.SeatData.{IsOf, IsSeat};

use crate::answers::Inline;
use step_rules::{NODE_WIDTH, Seat, Shared, backup_load, inline_load, version_again, version_load};

/// The words of a cell's first node, read from its inline words without a claim. Odd exactly where the
/// first version found is odd, else Marked exactly where the backup found is marked, else Changed
/// exactly where the second version found differs, else Words: those of the cell where the backup was
/// found.
pub fn read_inline(shared: &Shared, seat: &mut Seat, cell: u32) -> Inline
    requires ours { IsOf shared.now seat.old }
    requires there { cell < cells shared.now.plan }
    ensures answer { ReadsInline cell result seat.old seat.new }
    ensures only { OnlyRead seat.old seat.new }
    ensures law { IsSeat seat.new }
{
    let version = version_load(shared, seat, cell);
    if version % 2 == 1 {
        return Inline::Odd;
    }
    let words = load_words(shared, seat, cell);
    let word = backup_load(shared, seat, cell);
    if word % 2 == 1 {
        return Inline::Marked;
    }
    let again = version_again(shared, seat, cell);
    if again != version {
        return Inline::Changed;
    }
    Inline::Words(words)
}

/// Loads all inline words of the cell of a read that has none yet.
fn load_words(shared: &Shared, seat: &mut Seat, cell: u32) -> [u64; NODE_WIDTH]
    requires ours { IsOf shared.now seat.old }
    requires begun { HasBegun cell seat.old.view }
    ensures loaded { HasLoaded cell result seat.old seat.new }
    ensures law { IsSeat seat.new }
{
    let mut words = [0u64; NODE_WIDTH];
    for (j, word) in words.iter_mut().enumerate() {
        *word = inline_load(shared, seat, cell, j as u32);
    }
    words
}
