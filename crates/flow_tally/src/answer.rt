ghost use Rattle.std.specs.Prelude.{◌≡◌, None};

use crate::status::Status;
use step_rules::Closed;

/// What a command answers before it is written.
#[derive(Drop)]
pub struct Answer {
    /// The whole output.
    pub text: Vec<u8>,
    /// The shared object on which the calls were made.
    pub closed: Closed,
}

/// How a run ended.
#[derive(Drop)]
pub struct Ended {
    pub status: Status,
    /// The shared object on which the calls were made: there at Done and WriteFault alone.
    pub closed: Option<Closed>,
}

impl Ended {
    /// An end without an output.
    pub(crate) fn refused(status: Status) -> Ended
        ensures status { result.status ≡ status }
        ensures none { result.closed ≡ None }
    {
        Ended {
            status,
            closed: None,
        }
    }
}
