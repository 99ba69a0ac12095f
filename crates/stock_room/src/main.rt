//! A stock room: workers, a thread each, reserve items of one table for orders.
#![tactic(auto)]

mod orders;
mod session;

use cache_hash::KeyWords;
use orders::Lot;
use session::{Asked, run};
use std::{env, io};

const USAGE: &str = "stock_room WORKERS BUCKETS ITEMS [ITEM STOCK].. [ITEM AMOUNT]..";

// Three numbers, so many items with their stock, and then the orders.
fn read_words(rt: &HostRuntime) -> io::Result<Option<Asked>> {
    let mut numbers = Vec::new(rt.alloc());
    for word in env::args(rt)?.skip(1) {
        let Ok(number) = word.parse::<u64>() else {
            return Ok(None);
        };
        numbers.push(number)?;
    }
    let [workers, buckets, count, pairs @ ..] = numbers.as_slice() else {
        return Ok(None);
    };
    let mut items = Vec::new(rt.alloc());
    let mut orders = Vec::new(rt.alloc());
    for pair in pairs.chunks(2) {
        let [item, amount] = pair else {
            return Ok(None);
        };
        let lot = Lot {
            item: KeyWords { k0: 0, k1: *item },
            amount: *amount,
        };
        let lots = if (items.len() as u64) < *count {
            &mut items
        } else {
            &mut orders
        };
        lots.push(lot)?;
    }
    Ok(Asked::of(*workers, *buckets, items, orders))
}

fn main(rt: HostRuntime) -> io::Result<()> {
    let Some(asked) = read_words(&rt)? else {
        return println!(rt; "{USAGE}");
    };
    let Some(pairs) = run(&rt, rt.alloc(), &asked)? else {
        return println!(rt; "an item is listed twice, or there is no room for the table");
    };
    for (item, val) in pairs.as_slice() {
        println!(rt; "{} {} {}", item.k1, val[0], val[1])?;
    }
    Ok(())
}
