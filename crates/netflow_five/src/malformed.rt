use thiserror::Error;

/// The first of the four tests that bytes fail where a datagram is to begin.
#[derive(Clone, Copy, Debug, PartialEq, Eq, Error)]
pub enum Malformed {
    /// Fewer than 24 bytes are left.
    #[error("short header, {left} bytes left")]
    ShortHeader { left: usize },
    /// The version isn't 5.
    #[error("version {found}")]
    Version { found: u16 },
    /// The count of records isn't from 1 to 30.
    #[error("count {found}")]
    Count { found: u16 },
    /// Fewer bytes stand after the header than the count of records wants.
    #[error("short records, {left} bytes left, {wanted} wanted")]
    ShortRecords { left: usize, wanted: usize },
}
