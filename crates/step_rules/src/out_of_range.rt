use thiserror::Error;

/// The first number of a plan that is out of its range, in the order of the plan's fields.
#[derive(Clone, Copy, Debug, Drop, PartialEq, Eq, Error)]
pub enum OutOfRange {
    /// The seats aren't from 1 to 64.
    #[error("{found} seats, and a plan has 1 to 64")]
    Seats { found: u32 },
    /// The share isn't from 1 to 2^22 nodes.
    #[error("a share of {found} nodes, and a plan has 1 to 4194304")]
    Share { found: u32 },
    /// The registers are more than 64.
    #[error("{found} registers, and a plan has at most 64")]
    Registers { found: u32 },
    /// The buckets are more than 2^20.
    #[error("{found} buckets, and a plan has at most 1048576")]
    Buckets { found: u32 },
    /// The changes of a number are more than 2^32.
    #[error("{found} changes, and a plan has at most 4294967296")]
    Changes { found: u64 },
    /// The removes of a number are more than 2^20.
    #[error("{found} removes, and a plan has at most 1048576")]
    Removes { found: u32 },
}
