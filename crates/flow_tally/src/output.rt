ghost use Rattle.std.specs.Prelude.{◌≡◌, ◌≤◌, Some};
ghost use Rattle.flow_tally.specs.OutShown.{out_shown, Took};

use crate::answer::{Answer, Ended};
use crate::status::Status;
use wire_ports::{Sink, put_all};

/// Writes the whole output, and tells how that ended.
pub(crate) fn write_output<O: Sink>(out: &mut O, answer: Answer) -> Ended
    ensures later { O.faults out.old ≤ O.faults out.new }
    ensures took { Took answer.text.items (out_shown O.faults O.taken O.writes out.old out.new) result.status }
    ensures closed { result.closed ≡ Some answer.closed }
{
    let Answer { text, closed } = answer;
    let status = match put_all(out, &text) {
        Ok(()) => Status::Done,
        Err(failed) => Status::WriteFault {
            written: failed.written,
        },
    };
    Ended {
        status,
        closed: Some(closed),
    }
}
