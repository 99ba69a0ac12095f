//! What a batch seat knows. No value of `BatchView` is made: it is what the logic keeps for each seat,
//! and each atomic step of a seat says what becomes of its own.
use std::collections::LinkedList;

/// How many batches there are, and how many seats draw them.
#[derive(Clone, Copy, Debug, Drop, PartialEq, Eq)]
pub struct BatchPlan {
    /// At most 2^23.
    pub count: u32,
    /// 1 to 64.
    pub seats: u32,
}

/// All that a seat knows.
pub struct BatchView {
    pub plan: BatchPlan,
    /// The seats' numbers that it holds.
    pub numbers: LinkedList<u32>,
    /// The batches that it drew, in its order, and behind them those of the seats that it joined.
    pub drawn: LinkedList<u32>,
    /// The word that its last step found in the cursor.
    pub found: u64,
    /// How many of its draws found the cursor at or past the count.
    pub late: u64,
    /// Whether its last step found the cursor below the count, and the draw is still to come.
    pub pending: bool,
    /// Whether one of its steps found the cursor at or past the count.
    pub ended: bool,
    /// Whether it asked for no batch and joined nothing.
    pub fresh: bool,
}
