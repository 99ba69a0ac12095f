/// What a recheck found in the cell's backup.
#[derive(Clone, Copy, Debug, Drop, PartialEq, Eq)]
pub enum Recheck {
    /// The same node: the claim stands. The word may have another mark.
    Same(u64),
    /// Another node: no claim begins to stand.
    Other(u64),
}
