use crate::key::KeyWords;
use crate::words::{Rec, ValWords};

/// What a caller asks of the object.
#[derive(Clone, Copy, Debug, PartialEq, Eq)]
pub enum Call {
    /// The words of a register.
    Load {
        reg: u32,
    },
    /// Gives a register new words.
    Store {
        reg: u32,
        new: Rec,
    },
    /// Gives a register new words where it has the old ones.
    Swap {
        reg: u32,
        old: Rec,
        new: Rec,
    },
    /// Holds the record that a register has now.
    Hold {
        reg: u32,
    },
    /// The words of the held record.
    Look,
    /// Holds nothing any more.
    Release,
    /// The value under a key.
    Find {
        key: KeyWords,
    },
    /// Adds a pair where the key is absent.
    Insert {
        key: KeyWords,
        val: ValWords,
    },
    /// Gives a key a new value where it has the old one.
    Replace {
        key: KeyWords,
        old: ValWords,
        new: ValWords,
    },
    /// Takes a pair out.
    Remove {
        key: KeyWords,
    },
}
