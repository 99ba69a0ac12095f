ghost use Rattle.std.specs.Prelude.{◌≡◌};
ghost use Rattle.netflow_five.specs.declared.refused.Refused.TheVariants.{NoMemory};

use crate::malformed::Malformed;
use std::alloc::{AllocError, AllocFailed};
use wire_ports::NoMemory as OutOfMemory;

/// Why a file's bytes have no places.
#[derive(Clone, Copy, Debug, PartialEq, Eq)]
pub enum Refused {
    /// The well-formed datagrams from the start end at this offset, and what follows is no datagram.
    Malformed { offset: usize, cause: Malformed },
    NoMemory,
}

impl From<AllocError> for Refused {
    ghost from_gives = { λ _ e. e ≡ NoMemory };

    fn from(_: AllocError) -> Self {
        Refused::NoMemory
    }
}

impl<T: Drop> From<AllocFailed<T>> for Refused {
    ghost from_gives = { λ _ e. e ≡ NoMemory };

    fn from(_: AllocFailed<T>) -> Self {
        Refused::NoMemory
    }
}

impl From<OutOfMemory> for Refused {
    ghost from_gives = { λ _ e. e ≡ NoMemory };

    fn from(_: OutOfMemory) -> Self {
        Refused::NoMemory
    }
}
