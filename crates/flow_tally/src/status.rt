ghost use Rattle.std.specs.Prelude.{◌≡◌};
ghost use Rattle.flow_tally.specs.Status.{exit_code_of};

use call_script::BadScript;
use netflow_five::Malformed;

/// How a run ended. Files are numbered from 1, in the order of the words.
#[derive(Clone, Copy, Debug, PartialEq, Eq)]
pub enum Status {
    /// All input was read to its end, and all output was taken.
    Done,
    /// The words fit no command.
    Usage,
    /// A file couldn't be started.
    OpenFault {
        file: u32,
    },
    /// A read of a file failed.
    ReadFault {
        file: u32,
    },
    /// The output took so many first bytes, and then failed.
    WriteFault {
        written: usize,
    },
    /// From this offset on a file has no further datagram.
    BadDatagram {
        file: u32,
        offset: usize,
        cause: Malformed,
    },
    /// The records have more flows than the tally may have.
    TooManyFlows {
        limit: u32,
    },
    /// The bytes of all files exceed the limit within this file.
    InputTooLarge {
        file: u32,
    },
    /// The script's file is no script.
    BadScript {
        cause: BadScript,
    },
    /// Memory ran out.
    NoMemory,
    /// The tally's numbers ask for so many nodes, more than there may be.
    PlanTooLarge {
        nodes: u64,
    },
}

impl Status {
    /// The program's exit status.
    pub fn exit_code(self) -> u8
        ensures { result ≡ exit_code_of self }
    {
        match self {
            Status::Done => 0,
            Status::Usage => 2,
            Status::OpenFault { .. } => 3,
            Status::ReadFault { .. } => 4,
            Status::WriteFault { .. } => 5,
            Status::BadDatagram { .. } => 6,
            Status::TooManyFlows { .. } => 7,
            Status::InputTooLarge { .. } => 8,
            Status::BadScript { .. } => 9,
            Status::NoMemory => 10,
            Status::PlanTooLarge { .. } => 11,
        }
    }
}
