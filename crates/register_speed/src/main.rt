//! Threads that load, store and compare-and-swap on one object, to be timed.
#![tactic(auto)]

mod asked;
mod caller;
mod turns;

use asked::{Asked, Kind};
use big_atomic::Plan;
use speed_runs::{Words, print_counts, read_words, run};
use std::io;

const USAGE: &str = "register_speed [time] THREADS REGISTERS CALLS SHARE store|load|mix|few [FILE]";

fn read_kind(word: &str) -> Option<Kind> {
    match word {
        "load" => Some(Kind::Load),
        "store" => Some(Kind::Store),
        "mix" => Some(Kind::Mix),
        "few" => Some(Kind::Few),
        _ => None,
    }
}

fn word_of(kind: Kind) -> &'static str {
    match kind {
        Kind::Load => "load",
        Kind::Store => "store",
        Kind::Mix => "mix",
        Kind::Few => "few",
    }
}

fn main(rt: HostRuntime) -> io::Result<()> {
    let Some(words) = read_words(&rt, USAGE, &read_kind)? else {
        return Ok(());
    };
    let Words {
        timed,
        numbers,
        kind,
        stream,
    } = words;
    let Some(asked) = Asked::of(numbers, kind, stream) else {
        return println!(rt; "{USAGE}");
    };
    let Some((outcome, took)) = run(&rt, rt.alloc(), &asked)? else {
        return println!(rt; "no room for the object");
    };
    let Plan {
        seats,
        registers,
        ..
    } = outcome.closed.plan();
    let word = word_of(kind);
    print!(rt; "kind {word} threads {seats} registers {registers} ")?;
    print_counts(&rt, &outcome, if timed { Some(took) } else { None })
}
