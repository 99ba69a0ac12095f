//! Threads that find, insert and replace keys in one table, to be timed.
#![tactic(auto)]

mod asked;
mod caller;
mod turns;

use asked::{Asked, Kind};
use cache_hash::Plan;
use speed_runs::{Words, print_counts, read_words, run};
use std::io;

const USAGE: &str =
    "table_speed [time] THREADS BUCKETS KEYS CALLS SHARE find|insert|mix|sum|few [FILE]";

fn read_kind(word: &str) -> Option<Kind> {
    match word {
        "find" => Some(Kind::Find),
        "insert" => Some(Kind::Insert),
        "mix" => Some(Kind::Mix),
        "sum" => Some(Kind::Sum),
        "few" => Some(Kind::Few),
        _ => None,
    }
}

fn word_of(kind: Kind) -> &'static str {
    match kind {
        Kind::Find => "find",
        Kind::Insert => "insert",
        Kind::Mix => "mix",
        Kind::Sum => "sum",
        Kind::Few => "few",
    }
}

fn main(rt: HostRuntime) -> io::Result<()> {
    let Some(words) = read_words(&rt, USAGE, &read_kind)? else {
        return Ok(());
    };
    let Words {
        timed,
        numbers,
        kind,
        stream,
    } = words;
    let Some(asked) = Asked::of(numbers, kind, stream) else {
        return println!(rt; "{USAGE}");
    };
    let Some((outcome, took)) = run(&rt, rt.alloc(), &asked)? else {
        return println!(rt; "no room for the table");
    };
    let Plan { seats, buckets, .. } = outcome.closed.plan();
    let word = word_of(kind);
    let keys = asked.keys;
    let filled = outcome.filled;
    print!(rt; "kind {word} threads {seats} buckets {buckets} keys {keys} filled {filled} ")?;
    print_counts(&rt, &outcome, if timed { Some(took) } else { None })
}
