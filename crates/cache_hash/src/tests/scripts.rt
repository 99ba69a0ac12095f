//! Two scripts of one caller, as calls on one seat.
ghost use Rattle.std.specs.Prelude.{◌≡◌, ◌<◌};
ghost use Rattle.big_atomic.specs.Ready.{IsReady};
ghost use Rattle.step_rules.specs.Layout.{IsPlan};

use super::{close, exchange, get, key, opened, put, take_out, val};
use crate::{Insert, Plan, Remove, Replace, Seat, Shared};
use big_atomic::{Stored, Swap, compare_and_swap, load, store};
use hazard_claims::scan;
use seat_history::{Call, KeyWords, Rec, Reply, ValWords, WIDTH};
use std::process::Abort;
use std::test::Fail;
use step_rules::Counts;

// Numbers as a record.
fn rec(a: u64, b: u64, c: u64) -> Rec {
    let mut words = [0; WIDTH];
    words[0] = a;
    words[1] = b;
    words[2] = c;
    words
}

// A plan of one seat with 16 registers.
fn script_plan(rt: &impl Abort, share: u32, buckets: u32, changes: u64, removes: u32) -> Plan
    ensures plan { IsPlan result }
{
    assert!(rt; 0 < share && share <= 1 << 22);
    assert!(rt; buckets <= 1 << 20);
    assert!(rt; changes <= 1 << 32);
    assert!(rt; removes <= 1 << 20);
    Plan {
        seats: 1,
        share,
        registers: 16,
        buckets,
        changes,
        removes,
    }
}

// A call on a register.
fn answer_register(rt: &impl Abort, shared: &Shared, seat: &mut Seat, call: Call) -> Reply
    requires ready { IsReady shared.now seat.old }
    ensures ready { IsReady shared.now seat.new }
{
    assert!(rt; 0 < seat.changes_left());
    match call {
        Call::Load { reg } => {
            assert!(rt; reg < shared.plan().registers);
            Reply::Words(load(shared, seat, reg))
        }
        Call::Store { reg, new } => {
            assert!(rt; reg < shared.plan().registers);
            match store(shared, seat, reg, new) {
                Stored::Done => Reply::Done,
                Stored::Full { need, free } => Reply::Full { need, free },
            }
        }
        Call::Swap { reg, old, new } => {
            assert!(rt; reg < shared.plan().registers);
            match compare_and_swap(shared, seat, reg, old, new) {
                Swap::Yes => Reply::Yes,
                Swap::No => Reply::No,
                Swap::Full { need, free } => Reply::Full { need, free },
            }
        }
        _ => panic!(rt; "a call on neither a register nor a key"),
    }
}

// A call on a key or on a register.
fn answer(rt: &impl Abort, shared: &Shared, seat: &mut Seat, call: Call) -> Reply
    requires ready { IsReady shared.now seat.old }
    ensures ready { IsReady shared.now seat.new }
{
    match call {
        Call::Find { key } => match get(rt, shared, seat, key) {
            None => Reply::Absent,
            Some(val) => Reply::Val(val),
        },
        Call::Insert { key, val } => match put(rt, shared, seat, key, val) {
            Insert::Done => Reply::Done,
            Insert::Present(there) => Reply::Present(there),
            Insert::Full { need, free } => Reply::Full { need, free },
        },
        Call::Replace { key, old, new } => match exchange(rt, shared, seat, key, old, new) {
            Replace::Yes => Reply::Yes,
            Replace::Found(there) => Reply::Found(there),
            Replace::Absent => Reply::Absent,
            Replace::Full { need, free } => Reply::Full { need, free },
        },
        Call::Remove { key } => match take_out(rt, shared, seat, key) {
            Remove::Gone(gone) => Reply::Gone(gone),
            Remove::Absent => Reply::Absent,
            Remove::Full { need, free } => Reply::Full { need, free },
        },
        _ => answer_register(rt, shared, seat, call),
    }
}

// Makes calls, each with the reply that is to come.
fn play_lines(rt: &impl Abort, shared: &Shared, seat: &mut Seat, lines: &[(Call, Reply)])
    requires ready { IsReady shared.now seat.old }
    ensures ready { IsReady shared.now seat.new }
{
    for (call, reply) in lines {
        assert_eq!(rt; answer(rt, shared, seat, *call), *reply, "at {call:?}");
    }
}

fn swap(old: Rec, new: Rec) -> Call {
    Call::Swap { reg: 3, old, new }
}

fn insert(key: KeyWords, val: ValWords) -> Call {
    Call::Insert { key, val }
}

fn replace(key: KeyWords, old: ValWords, new: ValWords) -> Call {
    Call::Replace { key, old, new }
}

#[test]
fn a_register_and_a_key_change(rt: HostRuntime) -> Result<(), Fail> {
    let (shared, mut seat) = opened(rt.alloc(), &script_plan(&rt, 4_096, 16, 15, 2))?;
    let new = rec(7, 0, 1);
    let set = Call::Store { reg: 3, new };
    let it = key(9, 4);
    let (find, remove) = (Call::Find { key: it }, Call::Remove { key: it });
    let lines = [
        (swap(rec(0, 0, 0), rec(0, 0, 0)), Reply::Yes),
        (set, Reply::Done),
        (set, Reply::Done),
        (swap(rec(7, 0, 0), rec(8, 0, 0)), Reply::No),
        (Call::Load { reg: 3 }, Reply::Words(new)),
        (insert(it, val(1, 2)), Reply::Done),
        (insert(it, val(5, 0)), Reply::Present(val(1, 2))),
        (replace(it, val(1, 2), val(1, 2)), Reply::Yes),
        (replace(it, val(5, 0), val(6, 0)), Reply::Found(val(1, 2))),
        (remove, Reply::Gone(val(1, 2))),
        (find, Reply::Absent),
        (replace(it, val(0, 0), val(1, 0)), Reply::Absent),
        (remove, Reply::Absent),
        (insert(it, val(3, 0)), Reply::Done),
        (find, Reply::Val(val(3, 0))),
    ];
    play_lines(&rt, &shared, &mut seat, &lines);
    // A store, two inserts and a remove changed the object.
    assert_eq!(rt; seat.changes_left(), 11);
    assert_eq!(rt; seat.removes_left(), 1);
    scan(&shared, &mut seat);
    let closed = close(&rt, shared, seat);
    let counts = Counts {
        free: 4_096,
        live: 32,
        retired: 0,
    };
    assert_eq!(rt; closed.counts(), counts);
    Ok(())
}

#[test]
fn four_nodes_run_dry(rt: HostRuntime) -> Result<(), Fail> {
    let (shared, mut seat) = opened(rt.alloc(), &script_plan(&rt, 4, 1, 9, 1))?;
    let (one, three, four) = (key(1, 0), key(3, 0), key(4, 0));
    let old = val(10, 0);
    let lines = [
        (insert(one, old), Reply::Done),
        (insert(key(2, 0), val(20, 0)), Reply::Done),
        (insert(three, val(30, 0)), Reply::Done),
        (insert(four, val(40, 0)), Reply::Done),
        (
            insert(key(5, 0), val(50, 0)),
            Reply::Full { need: 2, free: 1 },
        ),
        (
            replace(one, old, val(11, 0)),
            Reply::Full { need: 4, free: 1 },
        ),
        (Call::Remove { key: four }, Reply::Gone(val(40, 0))),
        (
            replace(one, old, val(11, 0)),
            Reply::Full { need: 3, free: 2 },
        ),
        (replace(three, val(30, 0), val(31, 0)), Reply::Yes),
    ];
    play_lines(&rt, &shared, &mut seat, &lines);
    scan(&shared, &mut seat);
    let closed = close(&rt, shared, seat);
    let pairs = closed.pairs(rt.alloc())?;
    let left = [(one, old), (key(2, 0), val(20, 0)), (three, val(31, 0))];
    assert!(rt; pairs.as_slice() == left.as_slice());
    let counts = Counts {
        free: 2,
        live: 19,
        retired: 0,
    };
    assert_eq!(rt; closed.counts(), counts);
    Ok(())
}
