ghost use Rattle.std.specs.Prelude.{◌≡◌};
ghost use Rattle.netflow_five.specs.Streaming.{end_of};

use crate::malformed::Malformed;
use wire_ports::ReadEnd;

/// Why the datagrams of a started file weren't collected to its end.
#[derive(Clone, Copy, Debug, PartialEq, Eq)]
pub enum FileEnd {
    /// A read failed.
    Failed,
    /// More bytes were read than there may be.
    TooLarge,
    /// The file was read to its end. The well-formed datagrams from the start end at this offset,
    /// and what follows is no datagram.
    Malformed { offset: usize, cause: Malformed },
    NoMemory,
}

impl From<ReadEnd> for FileEnd {
    ghost from_gives = { λ end e. e ≡ end_of end };

    fn from(end: ReadEnd) -> Self {
        match end {
            ReadEnd::Failed => FileEnd::Failed,
            ReadEnd::TooLarge => FileEnd::TooLarge,
            ReadEnd::NoMemory => FileEnd::NoMemory,
        }
    }
}
