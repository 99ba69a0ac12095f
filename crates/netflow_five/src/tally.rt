ghost use Rattle.std.specs.Prelude.{◌≡◌, ◌++◌, ◌∷◌, ◌<◌, ◌^◌, [], List, length};
ghost use Rattle.netflow_five.specs.Tallies.{IsTally, line_with};
ghost use Rattle.netflow_five.specs.declared.seq_mark.SeqMark.{SeqMark};

use crate::engine_line::EngineLine;
use crate::seq_mark::SeqMark;

/// From this gap on the numbers went back rather than ahead.
const RESET: u32 = 1 << 31;

/// The datagrams of an engine so far.
#[derive(Clone, Copy, Debug)]
pub(crate) struct Tally {
    /// The sequence number that its next datagram has where no flow is lost.
    pub(crate) next: u32,
    pub(crate) flows: u64,
    pub(crate) lost: u64,
    pub(crate) resets: u64,
}

/// The tally of an engine's first datagram.
pub(crate) fn first_tally(mark: SeqMark) -> Tally
    ensures { IsTally (mark ∷ []) result }
{
    Tally {
        next: mark.sequence.wrapping_add(mark.count),
        flows: u64::from(mark.count),
        lost: 0,
        resets: 0,
    }
}

/// The tally with one datagram more.
pub(crate) fn add_mark(tally: Tally, mark: SeqMark) -> Tally
    requires few { (sent : List SeqMark) × IsTally sent tally × (length sent < 4194304) }
    ensures { (sent : List SeqMark) → IsTally sent tally → IsTally (sent ++ mark ∷ []) result }
{
    let gap = mark.sequence.wrapping_sub(tally.next);
    let next = mark.sequence.wrapping_add(mark.count);
    let flows = tally.flows + u64::from(mark.count);
    if gap < RESET {
        let lost = tally.lost + u64::from(gap);
        Tally {
            next,
            flows,
            lost,
            ..tally
        }
    } else {
        let resets = tally.resets + 1;
        Tally {
            next,
            flows,
            resets,
            ..tally
        }
    }
}

/// What is told of an engine with this tally.
pub(crate) fn line_of(engine: (u8, u8), tally: Tally) -> EngineLine
    ensures { result ≡ line_with engine tally }
{
    let (engine_type, engine_id) = engine;
    EngineLine {
        engine_type,
        engine_id,
        flows: tally.flows,
        lost: tally.lost,
        resets: tally.resets,
    }
}
