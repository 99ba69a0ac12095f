//! A seat that is dropped within a call, and what the others find in its register.
use super::copies::{copy_of, node_of};
use super::small_shares::{STORES, store_all};
use super::stops::{Claiming, Reading, Stop, Storing, drop_at};
use super::{FULL, HOLD, LOAD, opened, plan, play, rec, set, split, swap};
use cache_copy::Inline;
use hazard_claims::scan;
use seat_history::{Call, Reply};
use std::alloc::Global;
use std::process::Abort;
use std::test::Fail;

// A seat, which stores a 1 where it is in a store, is dropped at the stop. The others find this number
// and this copy; one goes on as the object of one thread, and so many of its nodes are kept from it.
fn others_go_on(
    rt: &impl Abort,
    alloc: Global,
    stop: Stop,
    number: u64,
    copy: Inline,
    kept: u32,
) -> Result<(), Fail> {
    let (shared, mut first) = opened(alloc, &plan(rt, 4, 4, 1, STORES + 10))?;
    let mut third = split(rt, alloc, &shared, &mut first)?;
    let mut reader = split(rt, alloc, &shared, &mut first)?;
    let mut second = split(rt, alloc, &shared, &mut first)?;
    assert!(rt; 0 < first.changes_left());
    assert!(rt; 0 < shared.plan().registers);
    assert!(rt; drop_at(&shared, first, rec(1), stop), "at {stop:?}");
    assert_eq!(rt; copy_of(rt, &shared, &mut reader), copy, "at {stop:?}");
    let rows = [
        (LOAD, Reply::Words(rec(number))),
        (HOLD, Reply::Done),
        (set(2), Reply::Done),
        (Call::Look, Reply::Words(rec(number))),
        (Call::Release, Reply::Done),
        (swap(1, 3), Reply::No),
        (swap(2, 3), Reply::Yes),
        (LOAD, Reply::Words(rec(3))),
    ];
    play(rt, &shared, &mut second, &rows);
    store_all(rt, &shared, &mut second);
    scan(&shared, &mut second);
    assert_eq!(rt; second.retired(), kept, "at {stop:?}");
    assert_eq!(rt; second.free(), 4u32.wrapping_sub(kept));
    // A locked register stays so: its inline words are never stored again.
    let left = if copy == Inline::Odd {
        copy
    } else {
        Inline::Words(node_of(STORES))
    };
    assert_eq!(rt; copy_of(rt, &shared, &mut reader), left, "at {stop:?}");
    let rows = [(LOAD, Reply::Words(rec(STORES)))];
    play(rt, &shared, &mut third, &rows);
    Ok(())
}

// The same with a share of one node, which is the other seat's last one where a claim keeps it.
fn one_node_lasts(rt: &impl Abort, alloc: Global, stop: Stop, kept: u32) -> Result<(), Fail> {
    let (shared, mut first) = opened(alloc, &plan(rt, 2, 1, 1, 10))?;
    let mut second = split(rt, alloc, &shared, &mut first)?;
    assert!(rt; 0 < first.changes_left());
    assert!(rt; 0 < shared.plan().registers);
    assert!(rt; drop_at(&shared, first, rec(1), stop), "at {stop:?}");
    let (reply, last) = if kept == 0 {
        (Reply::Done, 3)
    } else {
        (FULL, 2)
    };
    let rows = [
        (set(2), Reply::Done),
        (set(3), reply),
        (LOAD, Reply::Words(rec(last))),
        (swap(2, 2), if kept == 0 { Reply::No } else { Reply::Yes }),
        (set(last), Reply::Done),
    ];
    play(rt, &shared, &mut second, &rows);
    Ok(())
}

#[test]
fn a_dropped_seat_leaves_its_register_to_the_others(rt: HostRuntime) -> Result<(), Fail> {
    let old = Inline::Words(node_of(0));
    let new = Inline::Words(node_of(1));
    // Behind the stop: what a load and a read of the inline words find, and the nodes that claims keep.
    let rows = [
        (Stop::Split, 0, old, 0),
        (Stop::Read(Reading::Version), 0, old, 0),
        (Stop::Read(Reading::HalfOfWords), 0, old, 0),
        (Stop::Read(Reading::Backup), 0, old, 0),
        (Stop::Claim(Claiming::Announced), 0, old, 1),
        (Stop::Claim(Claiming::Rechecked), 0, old, 1),
        (Stop::Claim(Claiming::WordsRead), 0, old, 1),
        (Stop::Begun, 0, old, 0),
        (Stop::Turn(Claiming::Announced), 0, old, 1),
        (Stop::Turn(Claiming::Rechecked), 0, old, 1),
        (Stop::Turn(Claiming::WordsRead), 0, old, 1),
        (Stop::Store(Storing::Filled), 0, old, 1),
        (Stop::Store(Storing::Announced), 0, old, 1),
        (Stop::Store(Storing::Exchanged), 1, Inline::Marked, 1),
        (Stop::Store(Storing::Locked), 1, Inline::Odd, 1),
        (Stop::Store(Storing::HalfCopied), 1, Inline::Odd, 1),
        (Stop::Store(Storing::Released), 1, Inline::Marked, 1),
        (Stop::Store(Storing::Unmarked), 1, new, 1),
    ];
    for (stop, number, copy, kept) in rows {
        others_go_on(&rt, rt.alloc(), stop, number, copy, kept)?;
        one_node_lasts(&rt, rt.alloc(), stop, kept)?;
    }
    Ok(())
}
