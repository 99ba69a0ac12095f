ghost use Rattle.std.specs.Prelude.{◌≡◌, ◌≤◌, ◌<◌, ◌+◌, ◌-◌, ◌^◌, MatchResult};
ghost use Rattle.seat_history.specs.declared.words.TheConstants.{WIDTH};
ghost use Rattle.step_rules.specs.Layout.{IsPlan, cells, nodes, words};
ghost use Rattle.step_rules.specs.declared.layout.TheConstants.{CELL_WIDTH, CLAIMS, END, MOST_NODES, NODE_WIDTH};

use crate::plan::Plan;
use seat_history::WIDTH;
use thiserror::Error;

/// How many words a node has: a record's, and the next word.
pub const NODE_WIDTH: usize = WIDTH + 1;

/// How many words a cell has: its version, its backup, and as many inline words as a node has.
pub const CELL_WIDTH: usize = NODE_WIDTH + 2;

/// How many claim words a number has.
pub const CLAIMS: u32 = 4;

/// The claim word Back, the first one of a number.
pub(crate) const BACK: u32 = 0;

/// The next word of a bucket without records.
pub const END: u64 = u64::MAX;

/// At most this many nodes.
pub const MOST_NODES: u64 = 1 << 24;

/// How large an object of a plan is.
#[derive(Clone, Copy, Debug, PartialEq, Eq)]
pub struct Layout {
    pub cells: u32,
    pub nodes: u32,
    pub words: u64,
}

/// The plan has too many nodes: this many.
#[derive(Clone, Copy, Debug, Drop, PartialEq, Eq, Error)]
#[error("{nodes} nodes, and an object has at most 16777216")]
pub struct TooLarge {
    pub nodes: u64,
}

impl Layout {
    /// The sizes of the plan's object; TooLarge exactly where it has more than 2^24 nodes. A number has 4
    /// claim words, a node the words of a record and one more, a cell two more than a node.
    #[tactic(auto, unfolding(crate::specs::Layout::nodes))]
    pub fn of(plan: &Plan) -> Result<Layout, TooLarge>
        requires plan { IsPlan plan.now }
        ensures fits { MatchResult result (λ _. nodes plan.now ≤ 2 ^ 24) (λ _. 2 ^ 24 < nodes plan.now) }
        ensures numbers { (CLAIMS ≡ 4) × (NODE_WIDTH ≡ WIDTH + 1) × (CELL_WIDTH ≡ WIDTH + 3) × (MOST_NODES ≡ 2 ^ 24) × (END ≡ 2 ^ 64 - 1) }
        ensures layout { MatchResult result (λ layout. layout ≡ record { cells = cells plan.now; nodes = nodes plan.now; words = words plan.now }) (λ refused. refused.nodes ≡ nodes plan.now) }
    {
        let cells = plan.registers + plan.buckets;
        let nodes = u64::from(plan.seats) * u64::from(plan.share) + u64::from(cells);
        if nodes > MOST_NODES {
            return Err(TooLarge { nodes });
        }
        let words = u64::from(CLAIMS) * u64::from(plan.seats)
            + CELL_WIDTH as u64 * u64::from(cells)
            + NODE_WIDTH as u64 * nodes;
        Ok(Layout {
            cells,
            nodes: nodes as u32,
            words,
        })
    }
}
