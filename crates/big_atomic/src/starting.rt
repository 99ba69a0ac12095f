//! How a change of a cell begins its turns.
ghost use Rattle.std.specs.Prelude.{◌≡◌, ◌<◌};
ghost use Rattle.big_atomic.specs.Calling.{HasStarted, HasStartedRecord};
ghost use Rattle.step_rules.specs.Layout.{cells};
ghost use Rattle.step_rules.specs.SeatData.{IsOf, IsSeat};

use crate::claiming::{claim_once, look_first, read_record};
use cache_copy::begin;
use hazard_claims::{Claim, Recheck};
use seat_history::Rec;
use step_rules::{Seat, Shared};

/// What a turn of a change begins with: the cell's version, and the backup word found after it, whose
/// node the Back claim stands on.
#[derive(Clone, Copy, Drop)]
pub struct Start {
    pub version: u64,
    pub word: u64,
}

/// A turn of a change of a register: its start, the record of the claimed node, and the filled node that
/// a lost turn left.
#[derive(Clone, Copy, Drop)]
pub(crate) struct Turn {
    pub(crate) version: u64,
    pub(crate) word: u64,
    pub(crate) rec: Rec,
    pub(crate) kept: Option<u32>,
}

/// Finds the version of a cell, and claims the node that it names then. Each further turn has a change
/// of another caller to the cell, and finds the version anew.
pub fn claim_versioned(shared: &Shared, seat: &mut Seat, cell: u32) -> Start
    requires ours { IsOf shared.now seat.old }
    requires there { cell < cells shared.now.plan }
    ensures started { HasStarted cell result.version result.word seat.old seat.new }
    ensures law { IsSeat seat.new }
{
    let version = begin(shared, seat, cell);
    let word = look_first(shared, seat, cell);
    let mut start = Start { version, word };
    'turns: loop {
        match claim_once(shared, seat, Claim::Back, cell, start.word) {
            Recheck::Same(word) => {
                return Start {
                    version: start.version,
                    word,
                };
            }
            Recheck::Other(word) => {
                let again = begin(shared, seat, cell);
                start = Start {
                    version: again,
                    word,
                };
            }
        }
    }
}

/// Begins a turn of a change of a register, and reads its record.
pub(crate) fn begin_turn(shared: &Shared, seat: &mut Seat, reg: u32, kept: Option<u32>) -> Turn
    requires ours { IsOf shared.now seat.old }
    requires there { reg < shared.now.plan.registers }
    ensures started { HasStartedRecord reg result.version result.word result.rec seat.old seat.new }
    ensures kept { result.kept ≡ kept }
    ensures law { IsSeat seat.new }
{
    let start = claim_versioned(shared, seat, reg);
    let rec = read_record(shared, seat, (start.word / 2) as u32);
    let version = start.version;
    let word = start.word;
    Turn {
        version,
        word,
        rec,
        kept,
    }
}
