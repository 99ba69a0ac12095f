use step_rules::NODE_WIDTH;

/// What a read of a cell's inline words answers.
#[derive(Clone, Copy, Debug, Drop, PartialEq, Eq)]
pub enum Inline {
    /// The words of the first node that the cell had where its backup was found.
    Words([u64; NODE_WIDTH]),
    /// The version was odd: a change had locked the cell.
    Odd,
    /// The backup was marked: the inline words may be those of an earlier change.
    Marked,
    /// The version was another one after the read.
    Changed,
}

/// What a refresh of a cell's inline words answers.
#[derive(Clone, Copy, Debug, Drop, PartialEq, Eq)]
pub enum Refresh {
    /// The inline words are those of the node, and the mark is cleared.
    Refreshed,
    /// The refresh cleared no mark.
    LeftStale(Stale),
}

/// Why a refresh cleared no mark.
#[derive(Clone, Copy, Debug, Drop, PartialEq, Eq)]
pub enum Stale {
    /// The version is odd: another change had locked the cell.
    Odd,
    /// The version is even and 2^63 at least: no version is locked from there on.
    Last,
    /// The lock found another version.
    Moved,
    /// The clear of the mark found another backup word than the node's.
    Replaced,
}
