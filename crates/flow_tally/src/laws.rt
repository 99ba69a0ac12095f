// What holds between the crates below, and what the definitions come to. A law is a function with nothing to do.
ghost use Rattle.std.specs.Prelude.{◌≡◌, List, Option, ℕ};
ghost use Rattle.flow_tally.specs.Outcome.{Determines};
ghost use Rattle.flow_tally.specs.Words.{Command, IsWithin, words_asked};
ghost use Rattle.flow_tally.specs.declared.status.Status.{Status};
ghost use Rattle.wire_ports.specs.Ports.{Names};

use flow_fold::VALUE_WORDS;
use seat_history::WIDTH;

// A key's two words and a flow's value are as many as a record's.
const _: () = prove!(VALUE_WORDS + 2 == WIDTH);

/// Words and files always determine a status, and one only; words ask for no more datagrams than the
/// generator may make.
pub fn one_status_is_determined()
    ensures some { (asked : Option Command) (names : Names) → IsWithin asked → (status : Status) × Determines asked names status }
    ensures within { (words : List (List ℕ)) → IsWithin (words_asked words) }
    ensures one { (asked : Option Command) (names : Names) (status other : Status) → Determines asked names status
        → Determines asked names other → status ≡ other }
{}
