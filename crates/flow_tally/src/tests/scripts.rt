//! Scripts, and what a drive answers, writes and tells.

use super::{Part, USAGE_LINE, done, file, row, words_of};
use crate::status::Status;
use crate::top::run;
use call_script::{BadScript, Counts, Driven, LineCause, read_script, run_plain, write_replies};
use std::alloc::Global;
use std::process::Abort;
use std::test::Fail;
use std::thread::Threads;
use wire_ports::{SteadyFeed, SteadySink};
use worker_gate::OpenGate;

/// The words of a drive of the file `a`, its script, and its output.
const SCRIPTS: [(&str, &str, &str); 8] = [
    (
        "drive a",
        "callers 1\n0 swap 3 0 0\n0 store 3 7,0,1\n0 store 3 7,0,1\n0 swap 3 7 8\n0 load 3\n\
         0 insert 9,4 1,2\n0 insert 9,4 5\n0 replace 9,4 1,2 1,2\n0 replace 9,4 5 6\n\
         0 remove 9,4\n0 find 9,4\n0 replace 9,4 0 1\n0 remove 9,4\n0 insert 9,4 3\n0 find 9,4\n",
        "yes\ndone\ndone\nno\n7,0,1\ndone\npresent 1,2\nyes\nfound 1,2\ngone 1,2\nabsent\nabsent\n\
         absent\ndone\n3\nregister 3 7,0,1\nrecord 9,4 3\nnodes 4128 free 4096 live 32\n",
    ),
    (
        "drive --buckets 1 --share 1 a",
        "callers 1\n0 insert 1 10\n0 insert 2 20\n",
        "done\nfull need 2 free 1\nrecord 1 10\nnodes 18 free 1 live 17\n",
    ),
    (
        "drive --share 1 a",
        "callers 1\n0 hold 0\n0 store 0 5\n0 store 0 6\n0 look\n",
        "done\ndone\nfull need 1 free 0\n0\nregister 0 5\nnodes 33 free 1 live 32\n",
    ),
    (
        "drive --buckets 1 --share 4 a",
        "callers 1\n0 insert 1 10\n0 insert 2 20\n0 insert 3 30\n0 insert 4 40\n0 insert 5 50\n\
         0 replace 1 10 11\n0 remove 4\n0 replace 1 10 11\n0 replace 3 30 31\n",
        "done\ndone\ndone\ndone\nfull need 2 free 1\nfull need 4 free 1\ngone 40\n\
         full need 3 free 2\nyes\nrecord 1 10\nrecord 2 20\nrecord 3 31\nnodes 21 free 2 live 19\n",
    ),
    (
        "drive a",
        "callers 2\n0 store 0 1\n1 store 1 2\n0 load 0\n1 load 1\n",
        "done\ndone\n1\n2\nregister 0 1\nregister 1 2\nnodes 8224 free 8192 live 32\n",
    ),
    (
        "drive --share 1 --buckets 65536 a",
        "callers 2\n0 store 0 1\n1 store 1 2\n0 load 0\n1 load 1\n",
        "done\ndone\n1\n2\nregister 0 1\nregister 1 2\nnodes 65554 free 2 live 65552\n",
    ),
    ("drive a", "callers 1", "nodes 4128 free 4096 live 32\n"),
    (
        "drive --buckets 1 a",
        "callers 64\n63 insert 9 1\n0 insert 8,1 2\n1 insert 8 3\n2 insert 7 4\n3 insert 0,6 5\n\
         4 insert 5 6\n5 insert 0,4 7\n6 insert 3 8\n7 insert 0 9\n8 insert 18446744073709551615,0 10\n",
        "done\ndone\ndone\ndone\ndone\ndone\ndone\ndone\ndone\ndone\n\
         record 0 9\nrecord 0,4 7\nrecord 0,6 5\nrecord 3 8\nrecord 5 6\nrecord 7 4\nrecord 8 3\n\
         record 8,1 2\nrecord 9 1\nrecord 18446744073709551615 10\nnodes 262161 free 262135 live 26\n",
    ),
];

#[test]
fn scripts(rt: HostRuntime) -> Result<(), Fail> {
    for (words, script, out) in SCRIPTS {
        done(&rt, words, &[Part::Text(script)], out)?;
    }
    Ok(())
}

/// A script of one caller, with each kind of call. It leaves one record, so that no node is spent.
const ONE_CALLER: &str =
    "callers 1\n0 store 3 7,0,1\n0 hold 3\n0 store 3 8\n0 look\n0 drop\n0 swap 3 8 9\n0 swap 3 8 9\n\
    0 hold 3\n0 look\n0 load 4\n0 insert 9,4 1,2\n0 insert 9,4 5\n0 insert 8 6\n0 find 8\n0 replace 9,4 1,2 3\n\
    0 replace 9,4 1,2 3\n0 remove 8\n0 remove 8\n0 replace 8 1 1\n0 drop\n0 find 9,4\n";

/// What the script prints where its lines are called on the object of one thread.
fn plain_text(alloc: Global, script: &str) -> Result<Vec<u8>, Fail> {
    let script = read_script(alloc, script.as_bytes())?;
    let run = run_plain(alloc, &script)?;
    let driven = Driven {
        replies: run.replies,
        registers: run.registers,
        pairs: run.pairs,
        counts: Counts {
            free: 4096,
            live: 32,
            retired: 0,
        },
    };
    Ok(write_replies(alloc, &driven)?)
}

#[test]
fn one_caller_is_answered_as_on_one_thread(rt: HostRuntime) -> Result<(), Fail> {
    let text = plain_text(rt.alloc(), ONE_CALLER)?;
    let out = str::from_utf8(text.as_slice()).unwrap_or("");
    done(&rt, "drive a", &[Part::Text(ONE_CALLER)], out)
}

/// How many words of the text are this one.
fn count(text: &str, wanted: &str) -> usize {
    text.split_whitespace()
        .filter(|word| *word == wanted)
        .count()
}

#[test]
fn many_swaps(rt: HostRuntime) -> Result<(), Fail> {
    let alloc = rt.alloc();
    let words = words_of(alloc, "drive a")?;
    let mut feed = SteadyFeed::new(vec![in alloc; file(alloc, "a", &[Part::Swaps])?]?);
    let mut out = SteadySink::new(alloc);
    let mut err = SteadySink::new(alloc);
    out.reserve(1 << 18)?;
    let ended = run(&rt, alloc, &words, &mut feed, &mut out, &mut err, &OpenGate);
    assert_eq!(rt; ended.status, Status::Done);
    let text = str::from_utf8(out.as_slice()).unwrap_or("");
    let yes = count(text, "yes");
    assert_eq!(rt; count(text, "no"), 800 - yes.min(800));
    let mut ends = String::new(alloc);
    writeln!(ends, "register 0 {yes}")?;
    ends.push_str("nodes 16416 free 16384 live 32\n")?;
    assert!(rt; text.ends_with(ends.as_str()));
    Ok(())
}

/// A row of one file that is no script.
fn bad_script(
    rt: &(impl Abort + Alloc<A = Global> + Threads + Sync),
    line: u32,
    cause: LineCause,
    text: &'static str,
    err: &str,
) -> Result<(), Fail> {
    let cause = BadScript::BadLine { line, cause };
    row(
        rt,
        "drive a",
        &[Part::Text(text)],
        &[],
        (Status::BadScript { cause }, "", err),
    )
}

#[test]
fn bad_scripts(rt: HostRuntime) -> Result<(), Fail> {
    bad_script(
        &rt,
        2,
        LineCause::Held,
        "callers 1\n0 look\n",
        "flow_tally: script line 2: held\n",
    )?;
    bad_script(
        &rt,
        2,
        LineCause::Range,
        "callers 2\n2 load 0\n",
        "flow_tally: script line 2: range\n",
    )?;
    bad_script(
        &rt,
        1,
        LineCause::Words,
        "",
        "flow_tally: script line 1: words\n",
    )?;
    bad_script(
        &rt,
        3,
        LineCause::Number,
        "callers 1\n0 load 0\n0 load 00\n",
        "flow_tally: script line 3: number\n",
    )?;
    for line in [
        "drive",
        "drive a b",
        "drive --share 65537 a",
        "drive --workers 1 a",
    ] {
        row(&rt, line, &[], &[], (Status::Usage, "", USAGE_LINE))?;
    }
    Ok(())
}
