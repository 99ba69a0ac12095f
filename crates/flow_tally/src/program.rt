ghost use Rattle.std.specs.Prelude.{◌≡◌, ◌≤◌, drop, map, IfOk, IsErr, Option};
ghost use Rattle.std.specs.IoError.{error_kind};
ghost use Rattle.std.specs.String.{string_bytes};
ghost use Rattle.std.specs.Vec.Iter.{into_iter_items};
ghost use Rattle.flow_tally.specs.Input.{feed_shown};
ghost use Rattle.flow_tally.specs.Message.{message_of};
ghost use Rattle.flow_tally.specs.OutShown.{out_shown};
ghost use Rattle.flow_tally.specs.Outcome.{LeavesFeed, Says};
ghost use Rattle.flow_tally.specs.Program.{EndsAs, IsWanting, words_given};
ghost use Rattle.flow_tally.specs.Status.{exit_code_of};
ghost use Rattle.flow_tally.specs.Telling.{Tells};
ghost use Rattle.flow_tally.specs.Words.{words_asked};
ghost use Rattle.step_rules.specs.Closing.{ClosedData};

use crate::answer::Ended;
use crate::message::tell;
use crate::status::Status;
use crate::top::run;
use std::alloc::Global;
use std::env::Args;
use std::io;
use std::io::ErrorKind;
use std::thread::Threads;
use wire_ports::{Feed, NoMemory, Sink};
use worker_gate::Gate;

/// The arguments after the first, which is the program's name.
fn words_after_name(alloc: Global, mut args: Args) -> Result<Vec<String>, NoMemory>
    ensures { IfOk result (λ words. words.items ≡ drop 1 (into_iter_items args)) }
{
    let mut words = Vec::new(alloc);
    let _name = args.next();
    'words: while let Some(word) = args.next() {
        words.push(word)?;
    }
    Ok(words)
}

/// The words after the program's name; none, which fits no command, where one is no UTF-8.
fn words_of(alloc: Global, args: io::Result<Args>) -> Result<Vec<String>, NoMemory>
    ensures words { IfOk result (λ words. words.items ≡ words_given (λ given. into_iter_items given) args) }
    ensures wanting { IsWanting (λ fault. error_kind fault ≡ ErrorKind.OutOfMemory) args → IsErr result }
{
    match args {
        Ok(args) => words_after_name(alloc, args),
        Err(error) => {
            if error.kind() == ErrorKind::OutOfMemory {
                return Err(NoMemory);
            }
            Ok(Vec::new(alloc))
        }
    }
}

/// Runs the program with its arguments, and tells how it ended.
fn run_with<R: Threads + Sync, F: Feed, O: Sink, E: Sink, G: Gate>(
    rt: &R,
    alloc: Global,
    args: io::Result<Args>,
    feed: &mut F,
    out: &mut O,
    err: &mut E,
    gate: &G,
) -> Ended
    ensures says { Says (words_asked (map string_bytes (words_given (λ given. into_iter_items given) args)))
        (feed_shown F.files F.faults F.failed F.current F.started F.left F.given feed.old feed.new)
        (out_shown O.faults O.taken O.writes out.old out.new)
        result.closed result.status }
    ensures memory { IsWanting (λ fault. error_kind fault ≡ ErrorKind.OutOfMemory) args → result.status ≡ Status.NoMemory }
    ensures untouched { LeavesFeed (words_asked (map string_bytes (words_given (λ given. into_iter_items given) args))) result.status → feed.new ≡ feed.old }
    ensures files { F.files feed.new ≡ F.files feed.old }
    ensures feed_later { F.faults feed.old ≤ F.faults feed.new }
    ensures out_later { O.faults out.old ≤ O.faults out.new }
    ensures err_later { E.faults err.old ≤ E.faults err.new }
    ensures message { Tells (message_of result.status) (E.taken err.old) (E.taken err.new) (E.faults err.old) (E.faults err.new) }
{
    match words_of(alloc, args) {
        Ok(words) => run(rt, alloc, &words, feed, out, err, gate),
        Err(_) => tell(alloc, err, Ended::refused(Status::NoMemory)),
    }
}

/// Runs the program with its arguments, and gives its exit status.
pub fn exit_code<R: Threads + Sync, F: Feed, O: Sink, E: Sink, G: Gate>(
    rt: &R,
    alloc: Global,
    args: io::Result<Args>,
    feed: &mut F,
    out: &mut O,
    err: &mut E,
    gate: &G,
) -> u8
    ensures ended { (status : Status) × (closed : Option ClosedData) × (result ≡ exit_code_of status)
        × EndsAs (map string_bytes (words_given (λ given. into_iter_items given) args))
        (IsWanting (λ fault. error_kind fault ≡ ErrorKind.OutOfMemory) args)
        (feed_shown F.files F.faults F.failed F.current F.started F.left F.given feed.old feed.new)
        (out_shown O.faults O.taken O.writes out.old out.new)
        closed status
        × (LeavesFeed (words_asked (map string_bytes (words_given (λ given. into_iter_items given) args))) status → feed.new ≡ feed.old)
        × Tells (message_of status) (E.taken err.old) (E.taken err.new) (E.faults err.old) (E.faults err.new) }
    ensures files { F.files feed.new ≡ F.files feed.old }
    ensures feed_later { F.faults feed.old ≤ F.faults feed.new }
    ensures out_later { O.faults out.old ≤ O.faults out.new }
    ensures err_later { E.faults err.old ≤ E.faults err.new }
{
    run_with(rt, alloc, args, feed, out, err, gate)
        .status
        .exit_code()
}
