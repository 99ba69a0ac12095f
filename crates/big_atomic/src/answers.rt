use thiserror::Error;

/// What a store answers.
#[derive(Clone, Copy, Debug, Drop, PartialEq, Eq, Error)]
pub enum Stored {
    /// The register is the new record.
    #[error("stored")]
    Done,
    /// The register stays, since fewer nodes are free than are needed.
    #[error("full: {need} nodes are needed, and {free} are free")]
    Full { need: u32, free: u32 },
}

/// What a compare-and-swap answers.
#[derive(Clone, Copy, Debug, Drop, PartialEq, Eq, Error)]
pub enum Swap {
    /// The register was the old record, and is the new one.
    #[error("swapped")]
    Yes,
    /// The register wasn't the old record.
    #[error("not the old record")]
    No,
    /// The register was the old record and stays so, since fewer nodes are free than are needed.
    #[error("full: {need} nodes are needed, and {free} are free")]
    Full { need: u32, free: u32 },
}

impl Swap {
    ghost use Rattle.std.specs.Prelude.{◌≡◌};
    ghost use Rattle.big_atomic.specs.Calls.{says_yes};

    /// Whether the swap was made.
    pub fn is_yes(self) -> bool
        ensures { result ≡ says_yes self }
    {
        match self {
            Swap::Yes => true,
            _ => false,
        }
    }
}

/// What an install answers.
#[derive(Clone, Copy, Debug, Drop, PartialEq, Eq)]
pub enum Install {
    /// The cell has the new chain: the call is the last of the history.
    Installed,
    /// The cell's backup was found to name another node, by this word. The cell and the history stay.
    Moved(u64),
}

/// What a try to give a register a record comes to.
#[derive(Clone, Copy, Drop)]
pub(crate) enum Given {
    /// The register has the record.
    Done,
    /// The register stays, since no node is free.
    Full,
    /// Another caller's change came before. This node is still held, and has the record.
    Moved(u32),
}
