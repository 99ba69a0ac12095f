use crate::words::{Rec, ValWords};

/// What a caller is answered.
#[derive(Clone, Copy, Debug, PartialEq, Eq)]
pub enum Reply {
    /// The words of a register or of the held record.
    Words(Rec),
    /// It is done.
    Done,
    /// The register or the value was the old one, and is the new one.
    Yes,
    /// The register isn't the old one.
    No,
    /// The key isn't there.
    Absent,
    /// The value that was asked for.
    Val(ValWords),
    /// The key is there already, with this value.
    Present(ValWords),
    /// The value isn't the old one, but this.
    Found(ValWords),
    /// The pair is taken out; it had this value.
    Gone(ValWords),
    /// A shared object has fewer free nodes than the call needs. The object of one thread never
    /// replies so.
    Full { need: u32, free: u32 },
}
