ghost use Rattle.std.specs.Prelude.{◌≡◌, ◌≤◌, Some, IfErr, MatchResult};
ghost use Rattle.flow_tally.specs.DriveOutcome.{GivesScriptText};
ghost use Rattle.flow_tally.specs.Input.{feed_shown};
ghost use Rattle.flow_tally.specs.OutShown.{out_shown};
ghost use Rattle.flow_tally.specs.Outcome.{LeavesFeed, Prints, Refuses, Says};
ghost use Rattle.flow_tally.specs.Words.{OfDrive, drive_in};

use crate::answer::{Answer, Ended};
use crate::drive_words::DriveWords;
use crate::input::{MOST_BYTES, read_file};
use crate::output::write_output;
use crate::status::Status;
use call_script::{BadScript, read_script, write_replies};
use std::alloc::Global;
use std::thread::Threads;
use tally_core::{Ran, drive as run_script};
use wire_ports::{Feed, Sink};
use worker_gate::Gate;

/// What comes of the script that the bytes are, each caller in a thread of its own.
fn answer_of<R: Threads + Sync, G: Gate>(
    rt: &R,
    alloc: Global,
    words: &DriveWords,
    bytes: &[u8],
    gate: &G,
) -> Result<Answer, Status>
    ensures { GivesScriptText (drive_in words.now) bytes.now result }
{
    let script = match read_script(alloc, bytes) {
        Ok(script) => script,
        Err(BadScript::NoMemory) => return Err(Status::NoMemory),
        Err(cause) => return Err(Status::BadScript { cause }),
    };
    let Ok(ran) = run_script(rt, alloc, &script, words.buckets, words.share, gate) else {
        return Err(Status::NoMemory);
    };
    let Ran { driven, closed } = ran;
    match write_replies(alloc, &driven) {
        Ok(text) => Ok(Answer { text, closed }),
        Err(_) => Err(Status::NoMemory),
    }
}

/// What comes of the file's script.
fn drive_file<R: Threads + Sync, F: Feed, G: Gate>(
    rt: &R,
    alloc: Global,
    words: &DriveWords,
    feed: &mut F,
    gate: &G,
) -> Result<Answer, Status>
    ensures answer { MatchResult result
        (λ answer. Prints (Some (OfDrive (drive_in words.now))) (feed_shown F.files F.faults F.failed F.current F.started F.left F.given feed.old feed.new) answer.closed answer.text.items)
        (Refuses (Some (OfDrive (drive_in words.now))) (feed_shown F.files F.faults F.failed F.current F.started F.left F.given feed.old feed.new)) }
    ensures business { IfErr result (λ status. ¬ LeavesFeed (Some (OfDrive (drive_in words.now))) status) }
    ensures files { F.files feed.new ≡ F.files feed.old }
    ensures later { F.faults feed.old ≤ F.faults feed.new }
{
    match read_file(alloc, feed, 1, words.file.as_str(), MOST_BYTES) {
        Ok(bytes) => answer_of(rt, alloc, words, &bytes, gate),
        Err(status) => Err(status),
    }
}

/// Runs the file's script, and writes what comes of it once it is whole.
pub fn drive<R: Threads + Sync, F: Feed, O: Sink, G: Gate>(
    rt: &R,
    alloc: Global,
    words: &DriveWords,
    feed: &mut F,
    out: &mut O,
    gate: &G,
) -> Ended
    ensures says { Says (Some (OfDrive (drive_in words.now)))
        (feed_shown F.files F.faults F.failed F.current F.started F.left F.given feed.old feed.new)
        (out_shown O.faults O.taken O.writes out.old out.new)
        result.closed result.status }
    ensures business { ¬ LeavesFeed (Some (OfDrive (drive_in words.now))) result.status }
    ensures files { F.files feed.new ≡ F.files feed.old }
    ensures later { F.faults feed.old ≤ F.faults feed.new }
    ensures out_later { O.faults out.old ≤ O.faults out.new }
{
    match drive_file(rt, alloc, words, feed, gate) {
        Ok(answer) => write_output(out, answer),
        Err(status) => Ended::refused(status),
    }
}
