ghost use Rattle.std.specs.Prelude.{◌+◌, ◌<◌, ◌^◌};

use crate::{
    BadScript, Counts, Driven, LineCause, MOST_LINES, RecList, ReplyList, read_script, run_plain,
    write_replies,
};
use seat_history::{PairList, Reply};
use std::alloc::Global;
use std::test::Fail;

// What a script prints where its lines are called in its order, and so many nodes are left.
fn printed(alloc: Global, script: &str, free: u32, live: u32) -> Result<Vec<u8>, Fail>
    requires { free + live < 2 ^ 32 }
{
    let script = read_script(alloc, script.as_bytes())?;
    let run = run_plain(alloc, &script)?;
    let driven = Driven {
        replies: run.replies,
        registers: run.registers,
        pairs: run.pairs,
        counts: Counts {
            free,
            live,
            retired: 0,
        },
    };
    Ok(write_replies(alloc, &driven)?)
}

// Scripts with what they print.
static GOOD: [(&str, &str); 7] = [
    ("callers 1", ""),
    ("callers 64\n", ""),
    (
        "callers 1\n0 swap 3 0 0\n0 store 3 7,0,1\n0 store 3 7,0,1\n0 swap 3 7 8\n0 load 3\n0 insert 9,4 1,2\n0 insert 9,4 5\n\
         0 replace 9,4 1,2 1,2\n0 replace 9,4 5 6\n0 remove 9,4\n0 find 9,4\n0 replace 9,4 0 1\n0 remove 9,4\n0 insert 9,4 3\n0 find 9,4\n",
        "yes\ndone\ndone\nno\n7,0,1\ndone\npresent 1,2\nyes\nfound 1,2\ngone 1,2\nabsent\nabsent\nabsent\ndone\n3\nregister 3 7,0,1\nrecord 9,4 3\n",
    ),
    (
        "callers 2\n0 store 0 1\n1 store 1 2\n0 load 0\n1 load 1",
        "done\ndone\n1\n2\nregister 0 1\nregister 1 2\n",
    ),
    (
        "callers 2\n1 hold 15\n0 store 15 0,0,0,0,18446744073709551615\n1 look\n1 drop\n1 hold 15\n1 look\n",
        "done\ndone\n0\ndone\ndone\n0,0,0,0,18446744073709551615\nregister 15 0,0,0,0,18446744073709551615\n",
    ),
    (
        "callers 1\n0 insert 2 0\n0 insert 1,1 0,0,3\n0 insert 0 4\n",
        "done\ndone\ndone\nrecord 0 4\nrecord 1,1 0,0,3\nrecord 2 0\n",
    ),
    (
        "callers 1\n0 store 0 1,2,3,4,5,6,7\n0 load 0\n0 insert 0,1 1,2,3,4,5\n0 replace 0,1 1,2,3,4,5 0,0,0,0,5\n",
        "done\n1,2,3,4,5,6,7\ndone\nyes\nregister 0 1,2,3,4,5,6,7\nrecord 0,1 0,0,0,0,5\n",
    ),
];

#[test]
fn scripts_print_replies_contents_and_nodes(rt: HostRuntime) -> Result<(), Fail> {
    for (script, want) in GOOD {
        let text = printed(rt.alloc(), script, 4096, 18)?;
        let mut whole = String::from_str(rt.alloc(), want)?;
        whole.push_str("nodes 4114 free 4096 live 18\n")?;
        assert_eq!(rt; text.as_slice(), whole.as_bytes(), "of {script}");
    }
    Ok(())
}

#[test]
fn a_full_line_says_need_and_free(rt: HostRuntime) -> Result<(), Fail> {
    let mut replies = Vec::new(rt.alloc());
    replies.push(Reply::Full { need: 2, free: 1 })?;
    let driven = Driven {
        replies: ReplyList::of_vec(replies),
        registers: RecList::of_vec(Vec::new(rt.alloc())),
        pairs: PairList::of_vec(Vec::new(rt.alloc())),
        counts: Counts {
            free: 1,
            live: 17,
            retired: 0,
        },
    };
    let text = write_replies(rt.alloc(), &driven)?;
    assert_eq!(rt;
        text.as_slice(),
        "full need 2 free 1\nnodes 18 free 1 live 17\n".as_bytes()
    );
    Ok(())
}

#[test]
fn one_caller_after_the_other_swaps_each_number_once(rt: HostRuntime) -> Result<(), Fail> {
    let mut script = String::from_str(rt.alloc(), "callers 4\n")?;
    let mut want = String::new(rt.alloc());
    for caller in 0..4u32 {
        for i in 0..200u32 {
            write!(script, "{caller} swap 0 {i} {}\n", i + 1)?;
            want.push_str(if caller == 0 { "yes\n" } else { "no\n" })?;
        }
    }
    want.push_str("register 0 200\nnodes 4294967295 free 0 live 4294967295\n")?;
    let text = printed(rt.alloc(), script.as_str(), 0, 4_294_967_295)?;
    assert_eq!(rt; text.as_slice(), want.as_bytes());
    Ok(())
}

// Scripts with the number and the cause of their first bad line.
static BAD: [(&str, u32, LineCause); 38] = [
    ("", 1, LineCause::Words),
    ("\n", 1, LineCause::Words),
    ("callers", 1, LineCause::Words),
    ("callers 1 1", 1, LineCause::Words),
    ("callers 1 ", 1, LineCause::Words),
    (" callers 1", 1, LineCause::Words),
    ("callers  1", 1, LineCause::Words),
    ("caller x", 1, LineCause::Words),
    ("callers x", 1, LineCause::Number),
    ("callers 01", 1, LineCause::Number),
    ("callers 18446744073709551616", 1, LineCause::Number),
    ("callers 18446744073709551615", 1, LineCause::Range),
    ("callers 0", 1, LineCause::Range),
    ("callers 65\n0 look", 1, LineCause::Range),
    ("callers 1\n\n0 look", 2, LineCause::Words),
    ("callers 1\n0", 2, LineCause::Words),
    ("callers 1\nx lode y", 2, LineCause::Words),
    ("callers 1\n0 load", 2, LineCause::Words),
    ("callers 1\n9 look 9", 2, LineCause::Words),
    ("callers 1\n0 swap 0 1 2 3", 2, LineCause::Words),
    ("callers 1\n0 store 0 x ", 2, LineCause::Words),
    ("callers 1\nx load 16", 2, LineCause::Number),
    ("callers 1\n9 store 16 1,,2", 2, LineCause::Number),
    ("callers 1\n0 store 0 1,", 2, LineCause::Number),
    ("callers 1\n0 store 0 1,2,3,4,5,6,7,8", 2, LineCause::Number),
    ("callers 1\n0 store 00 1", 2, LineCause::Number),
    ("callers 1\n0 find 1,2,3", 2, LineCause::Number),
    ("callers 1\n0 insert 1 1,2,3,4,5,6", 2, LineCause::Number),
    ("callers 1\n0 load 0\r", 2, LineCause::Number),
    ("callers 2\n2 load 0", 2, LineCause::Range),
    ("callers 1\n0 load 16", 2, LineCause::Range),
    ("callers 1\n4294967296 look", 2, LineCause::Range),
    ("callers 1\n0 hold 16", 2, LineCause::Range),
    ("callers 1\n0 look", 2, LineCause::Held),
    ("callers 1\n0 drop\n0 lode", 2, LineCause::Held),
    ("callers 2\n0 hold 0\n1 look", 3, LineCause::Held),
    ("callers 1\n0 hold 0\n0 hold 1", 3, LineCause::Held),
    ("callers 1\n0 hold 0\n0 drop\n0 look", 4, LineCause::Held),
];

#[test]
fn the_first_bad_line_decides_by_its_first_cause(rt: HostRuntime) -> Result<(), Fail> {
    for (script, line, cause) in BAD {
        let read = read_script(rt.alloc(), script.as_bytes());
        assert_eq!(rt;
            read.err(),
            Some(BadScript::BadLine { line, cause }),
            "of {script}"
        );
    }
    Ok(())
}

#[test]
fn one_line_too_many_comes_after_the_bad_ones(rt: HostRuntime) -> Result<(), Fail> {
    let mut script = String::from_str(rt.alloc(), "callers 1\n")?;
    for _ in 1..MOST_LINES {
        script.push_str("0 swap 15 1,2,3,4,5,6,7 8,9,10,11,12,13,14\n")?;
    }
    let short = script.len();
    script.push_str("0 look\n0")?;
    let cause = LineCause::Held;
    assert_eq!(rt;
        read_script(rt.alloc(), script.as_bytes()).err(),
        Some(BadScript::BadLine {
            line: 65_537,
            cause
        })
    );
    script.truncate(short);
    script.push_str("0 hold 0\n")?;
    let read = read_script(rt.alloc(), script.as_bytes())?;
    assert_eq!(rt; read.lines.as_slice().len(), MOST_LINES);
    script.push_str("0")?;
    assert_eq!(rt;
        read_script(rt.alloc(), script.as_bytes()).err(),
        Some(BadScript::TooMany { line: 65_538 })
    );
    Ok(())
}
