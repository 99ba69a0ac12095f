//! Visitors, a thread each, go over a list of pages, and count their visits in one table.
#![tactic(auto)]

mod session;
mod visits;

use cache_hash::KeyWords;
use session::{Asked, run};
use std::{env, io};

const USAGE: &str = "visit_counter VISITORS BUCKETS PAGE..";

// Two numbers, and then the pages.
fn read_words(rt: &HostRuntime) -> io::Result<Option<Asked>> {
    let mut numbers = Vec::new(rt.alloc());
    for word in env::args(rt)?.skip(1) {
        let Ok(number) = word.parse::<u64>() else {
            return Ok(None);
        };
        numbers.push(number)?;
    }
    let [visitors, buckets, pages @ ..] = numbers.as_slice() else {
        return Ok(None);
    };
    let mut keys = Vec::new(rt.alloc());
    for page in pages {
        keys.push(KeyWords { k0: 0, k1: *page })?;
    }
    Ok(Asked::of(*visitors, *buckets, keys))
}

fn main(rt: HostRuntime) -> io::Result<()> {
    let Some(asked) = read_words(&rt)? else {
        return println!(rt; "{USAGE}");
    };
    let Some(totals) = run(&rt, rt.alloc(), &asked)? else {
        return println!(rt; "no room for the table");
    };
    for (page, val) in totals.as_slice() {
        println!(rt; "{} {}", page.k1, val[0])?;
    }
    Ok(())
}
