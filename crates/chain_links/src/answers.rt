use seat_history::{KeyWords, ValWords};

/// What a walk finds.
#[derive(Clone, Copy, Debug, Drop, PartialEq, Eq)]
pub enum Walk {
    /// The key's record stands at this position of the chain, and has this value.
    Found { at: u32, val: ValWords },
    /// The key isn't on the chain, which has so many records.
    End { length: u32 },
    /// The cell named another node.
    Moved,
}

/// A change of a chain's records.
#[derive(Clone, Copy, Debug, Drop, PartialEq, Eq)]
pub enum Edit {
    /// A new record before all others.
    Insert { key: KeyWords, val: ValWords },
    /// A new value for the key of the record at this position.
    Replace { at: u32, val: ValWords },
    /// The record at this position falls out.
    Remove { at: u32 },
}

/// What comes of copying a chain's front.
#[derive(Clone, Copy, Debug, Drop, PartialEq, Eq)]
pub enum Front {
    /// The seat holds the nodes of the front, and this is the first.
    Ready { node: u32 },
    /// The cell named another node, and every node that was taken is free again.
    Moved,
}
