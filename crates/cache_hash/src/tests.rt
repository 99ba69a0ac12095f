//! What the calls answer on small objects.
ghost use Rattle.std.specs.Prelude.{◌≡◌, ◌<◌, true, length, IfOk};
ghost use Rattle.big_atomic.specs.Ready.{IsReady};
ghost use Rattle.step_rules.specs.Layout.{IsPlan};
ghost use Rattle.step_rules.specs.SeatData.{IsOf};

mod dropped;
mod scripts;
mod small_shares;
mod stops;
mod threads;
mod updates;
mod watchers;

use crate::{
    Closed, Insert, KeyWords, Plan, Remove, Replace, Seat, Shared, VALUE_WIDTH, ValWords, build,
    find, insert, remove, replace,
};
use hazard_claims::scan;
use std::alloc::Global;
use std::process::Abort;
use std::test::Fail;
use step_rules::Counts;

fn key(k0: u64, k1: u64) -> KeyWords {
    KeyWords { k0, k1 }
}

// Numbers as a value.
fn val(a: u64, b: u64) -> ValWords {
    let mut words = [0; VALUE_WIDTH];
    words[0] = a;
    words[1] = b;
    words
}

// A plan without registers.
fn plan(rt: &impl Abort, seats: u32, share: u32, buckets: u32, changes: u64) -> Plan
    ensures plan { IsPlan result }
    ensures registers { result.registers ≡ 0 }
{
    assert!(rt; 0 < seats && seats <= 64);
    assert!(rt; 0 < share && share <= 1 << 22);
    assert!(rt; buckets <= 1 << 20);
    assert!(rt; changes <= 1 << 32);
    Plan {
        seats,
        share,
        registers: 0,
        buckets,
        changes,
        removes: 0,
    }
}

// Builds the object of a plan.
fn opened(alloc: Global, plan: &Plan) -> Result<(Shared, Seat), Fail>
    requires plan { IsPlan plan.now }
    ensures ready { IfOk result (λ made. IsReady made.0 made.1) }
{
    Ok(build(alloc, plan)?)
}

fn put(rt: &impl Abort, shared: &Shared, seat: &mut Seat, key: KeyWords, val: ValWords) -> Insert
    requires ready { IsReady shared.now seat.old }
    ensures ready { IsReady shared.now seat.new }
{
    assert!(rt; 0 < seat.changes_left());
    assert!(rt; 0 < shared.plan().buckets);
    insert(shared, seat, key, val)
}

// Puts pairs in, each with the answer that is to come.
fn play(rt: &impl Abort, shared: &Shared, seat: &mut Seat, rows: &[(KeyWords, ValWords, Insert)])
    requires ready { IsReady shared.now seat.old }
    ensures ready { IsReady shared.now seat.new }
{
    for (key, val, answer) in rows {
        assert_eq!(rt; put(rt, shared, seat, *key, *val), *answer, "at {key:?}");
    }
}

fn get(rt: &impl Abort, shared: &Shared, seat: &mut Seat, key: KeyWords) -> Option<ValWords>
    requires ready { IsReady shared.now seat.old }
    ensures ready { IsReady shared.now seat.new }
{
    assert!(rt; 0 < shared.plan().buckets);
    find(shared, seat, key)
}

fn exchange(
    rt: &impl Abort,
    shared: &Shared,
    seat: &mut Seat,
    key: KeyWords,
    old: ValWords,
    new: ValWords,
) -> Replace
    requires ready { IsReady shared.now seat.old }
    ensures ready { IsReady shared.now seat.new }
{
    assert!(rt; 0 < seat.changes_left());
    assert!(rt; 0 < shared.plan().buckets);
    replace(shared, seat, key, old, new)
}

fn take_out(rt: &impl Abort, shared: &Shared, seat: &mut Seat, key: KeyWords) -> Remove
    requires ready { IsReady shared.now seat.old }
    ensures ready { IsReady shared.now seat.new }
{
    assert!(rt; 0 < seat.changes_left());
    assert!(rt; 0 < seat.removes_left());
    assert!(rt; 0 < shared.plan().buckets);
    remove(shared, seat, key)
}

// Closes an object.
fn close(rt: &impl Abort, shared: Shared, seat: Seat) -> Closed
    requires ours { IsOf shared seat }
{
    assert_eq!(rt; seat.numbers(), shared.plan().seats);
    assert!(rt; seat.quiet());
    shared.close(seat)
}

#[test]
fn one_node_is_too_few_beside_a_record(rt: HostRuntime) -> Result<(), Fail> {
    let (shared, mut seat) = opened(rt.alloc(), &plan(&rt, 1, 1, 1, 10))?;
    let rows = [
        (key(1, 0), val(10, 0), Insert::Done),
        (key(2, 0), val(20, 0), Insert::Full { need: 2, free: 1 }),
        (key(1, 0), val(30, 0), Insert::Present(val(10, 0))),
    ];
    play(&rt, &shared, &mut seat, &rows);
    assert_eq!(rt; get(&rt, &shared, &mut seat, key(2, 0)), None);
    assert_eq!(rt; seat.changes_left(), 9);
    Ok(())
}

#[test]
fn finds_in_each_kind_of_bucket(rt: HostRuntime) -> Result<(), Fail> {
    let (shared, mut seat) = opened(rt.alloc(), &plan(&rt, 1, 4, 1, 2))?;
    let (first, second, third) = (key(1, 0), key(2, 0), key(3, 0));
    assert_eq!(rt; get(&rt, &shared, &mut seat, first), None);
    let rows = [(first, val(10, 0), Insert::Done)];
    play(&rt, &shared, &mut seat, &rows);
    assert_eq!(rt; get(&rt, &shared, &mut seat, first), Some(val(10, 0)));
    assert_eq!(rt; get(&rt, &shared, &mut seat, second), None);
    let rows = [(second, val(20, 0), Insert::Done)];
    play(&rt, &shared, &mut seat, &rows);
    assert_eq!(rt; get(&rt, &shared, &mut seat, second), Some(val(20, 0)));
    assert_eq!(rt; get(&rt, &shared, &mut seat, first), Some(val(10, 0)));
    assert_eq!(rt; get(&rt, &shared, &mut seat, third), None);
    Ok(())
}

#[test]
fn keys_are_told_apart_by_each_word(rt: HostRuntime) -> Result<(), Fail> {
    let (shared, mut seat) = opened(rt.alloc(), &plan(&rt, 1, 12, 1, 10))?;
    let rows = [
        (key(0, 0), val(1, 1), Insert::Done),
        (key(0, 1), val(2, 2), Insert::Done),
        (key(1, 0), val(3, 3), Insert::Done),
        (key(1, 1), val(4, 4), Insert::Done),
        (key(1, 0), val(5, 5), Insert::Present(val(3, 3))),
        (key(0, 1), val(6, 6), Insert::Present(val(2, 2))),
        (key(0, 0), val(7, 7), Insert::Present(val(1, 1))),
        (key(1, 1), val(8, 8), Insert::Present(val(4, 4))),
    ];
    play(&rt, &shared, &mut seat, &rows);
    Ok(())
}

const RECORDS: u64 = 300;

// Puts in as many records, and finds each.
fn fill_bucket(rt: &impl Abort, shared: &Shared, seat: &mut Seat)
    requires ready { IsReady shared.now seat.old }
    ensures ready { IsReady shared.now seat.new }
{
    for number in 1..=RECORDS {
        let answer = put(rt, shared, seat, key(number, 0), val(number, 7));
        assert_eq!(rt; answer, Insert::Done);
    }
    for number in 1..=RECORDS {
        let found = get(rt, shared, seat, key(number, 0));
        assert_eq!(rt; found, Some(val(number, 7)));
    }
}

#[test]
fn one_bucket_has_300_records(rt: HostRuntime) -> Result<(), Fail> {
    let (shared, mut seat) = opened(rt.alloc(), &plan(&rt, 1, 700, 1, RECORDS))?;
    fill_bucket(&rt, &shared, &mut seat);
    assert_eq!(rt; get(&rt, &shared, &mut seat, key(RECORDS + 1, 0)), None);
    scan(&shared, &mut seat);
    let closed = close(&rt, shared, seat);
    assert_eq!(rt; closed.pairs(rt.alloc())?.as_slice().len(), 300);
    let counts = Counts {
        free: 401,
        live: 300,
        retired: 0,
    };
    assert_eq!(rt; closed.counts(), counts);
    Ok(())
}
