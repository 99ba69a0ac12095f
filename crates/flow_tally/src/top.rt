ghost use Rattle.std.specs.Prelude.{◌≡◌, ◌≤◌, ◌⊎◌, List, ℕ, Some, map};
ghost use Rattle.std.specs.String.{string_bytes};
ghost use Rattle.flow_tally.specs.Message.{message_of};
ghost use Rattle.flow_tally.specs.Input.{feed_shown};
ghost use Rattle.flow_tally.specs.OutShown.{out_shown};
ghost use Rattle.flow_tally.specs.Outcome.{Says, Determines, IsDecided, HasOutput, IsPrintedOf, LeavesFeed};
ghost use Rattle.flow_tally.specs.Telling.{Tells};
ghost use Rattle.flow_tally.specs.Words.{words_asked};
ghost use Rattle.wire_ports.specs.Bytes.{Appends};
ghost use Rattle.wire_ports.specs.Ports.{Names, HasRisen};

use crate::answer::Ended;
use crate::drive::drive;
use crate::message::tell;
use crate::status::Status;
use crate::tally::tally;
use crate::words::{Asked, read_words};
use std::alloc::Global;
use std::thread::Threads;
use wire_ports::{Feed, Sink};
use worker_gate::Gate;

/// Does what the words ask for.
fn answer<R: Threads + Sync, F: Feed, O: Sink, G: Gate>(
    rt: &R,
    alloc: Global,
    words: &[String],
    feed: &mut F,
    out: &mut O,
    gate: &G,
) -> Ended
    ensures says { Says (words_asked (map string_bytes words.now))
        (feed_shown F.files F.faults F.failed F.current F.started F.left F.given feed.old feed.new)
        (out_shown O.faults O.taken O.writes out.old out.new)
        result.closed result.status }
    ensures untouched { LeavesFeed (words_asked (map string_bytes words.now)) result.status → feed.new ≡ feed.old }
    ensures files { F.files feed.new ≡ F.files feed.old }
    ensures feed_later { F.faults feed.old ≤ F.faults feed.new }
    ensures out_later { O.faults out.old ≤ O.faults out.new }
{
    match read_words(alloc, words) {
        Asked::Tally(words) => tally(rt, alloc, &words, feed, out, gate),
        Asked::Drive(words) => drive(rt, alloc, &words, feed, out, gate),
        Asked::Usage => Ended::refused(Status::Usage),
        Asked::NoMemory => Ended::refused(Status::NoMemory),
    }
}

/// A run of the program: does what the words after its name ask for, and tells how it ended. Workers
/// pass the gate.
pub fn run<R: Threads + Sync, F: Feed, O: Sink, E: Sink, G: Gate>(
    rt: &R,
    alloc: Global,
    words: &[String],
    feed: &mut F,
    out: &mut O,
    err: &mut E,
    gate: &G,
) -> Ended
    ensures status { Says (words_asked (map string_bytes words.now))
        (feed_shown F.files F.faults F.failed F.current F.started F.left F.given feed.old feed.new)
        (out_shown O.faults O.taken O.writes out.old out.new)
        result.closed result.status }
    ensures determined { (names : Names) → F.files feed.old ≡ Some names → IsDecided (words_asked (map string_bytes words.now)) names result.status }
    ensures complete { (names : Names) (status : Status) → F.files feed.old ≡ Some names → Determines (words_asked (map string_bytes words.now)) names status
        → ¬ HasRisen (F.faults feed.old) (F.faults feed.new) → ¬ HasRisen (O.faults out.old) (O.faults out.new)
        → (result.status ≡ status) ⊎ (result.status ≡ Status.NoMemory) }
    ensures output { (names : Names) → F.files feed.old ≡ Some names
        → HasOutput (words_asked (map string_bytes words.now)) names (out_shown O.faults O.taken O.writes out.old out.new) result.closed result.status }
    ensures report { (names : Names) (text : List ℕ) → F.files feed.old ≡ Some names → IsPrintedOf (words_asked (map string_bytes words.now)) names text
        → result.status ≡ Status.Done → Appends (O.taken out.old) text (O.taken out.new) }
    ensures untouched { LeavesFeed (words_asked (map string_bytes words.now)) result.status → feed.new ≡ feed.old }
    ensures files { F.files feed.new ≡ F.files feed.old }
    ensures feed_later { F.faults feed.old ≤ F.faults feed.new }
    ensures out_later { O.faults out.old ≤ O.faults out.new }
    ensures err_later { E.faults err.old ≤ E.faults err.new }
    ensures message { Tells (message_of result.status) (E.taken err.old) (E.taken err.new) (E.faults err.old) (E.faults err.new) }
{
    let ended = answer(rt, alloc, words, feed, out, gate);
    tell(alloc, err, ended)
}
