//! A seat that is dropped within a call, and what another one finds in its bucket.
ghost use Rattle.std.specs.Prelude.{◌<◌};
ghost use Rattle.big_atomic.specs.Ready.{IsReady};
ghost use Rattle.step_rules.specs.Layout.{IsPlan};

use super::small_shares::split;
use super::stops::{Changing, Reading, Stop, drop_inserting, drop_removing, drop_replacing};
use super::{exchange, get, key, opened, plan, play, put, take_out, val};
use crate::{Insert, KeyWords, Plan, Remove, Replace, Seat, Shared, ValWords};
use hazard_claims::scan;
use std::alloc::Global;
use std::process::Abort;
use std::test::Fail;

/// How often the other seat replaces the value of the chain's last record.
const REPLACES: u64 = 300;

const SHARE: u32 = 12;

/// The change within which a seat is dropped, in a chain of the keys 3, 2 and 1.
#[derive(Clone, Copy, Debug, Drop, PartialEq, Eq)]
enum Kind {
    /// Key 4 comes in.
    Insert,
    /// Key 2 gets another value.
    Replace,
    /// Key 2 falls out.
    Remove,
}

// A plan of two seats and one bucket, with removes.
fn removing_plan(rt: &impl Abort) -> Plan
    ensures plan { IsPlan result }
{
    let mut plan = plan(rt, 2, SHARE, 1, REPLACES + 10);
    plan.removes = 2;
    plan
}

fn key_of(kind: Kind) -> KeyWords {
    match kind {
        Kind::Insert => key(4, 0),
        Kind::Replace | Kind::Remove => key(2, 0),
    }
}

// What a find of its key answers, before the change and behind it.
fn found_of(kind: Kind, changed: bool) -> Option<ValWords> {
    match kind {
        Kind::Insert => changed.then_some(val(40, 0)),
        Kind::Replace => Some(val(if changed { 21 } else { 20 }, 0)),
        Kind::Remove => (!changed).then_some(val(20, 0)),
    }
}

// A seat makes some steps, a change's of this kind, and is dropped.
fn drop_within(rt: &impl Abort, shared: &Shared, seat: Seat, kind: Kind, stop: Stop)
    requires ready { IsReady shared.now seat }
{
    assert!(rt; 0 < shared.plan().buckets);
    assert!(rt; 0 < seat.changes_left());
    assert!(rt; 0 < seat.removes_left());
    let key = key_of(kind);
    let came = match kind {
        Kind::Insert => drop_inserting(shared, seat, key, val(40, 0), stop),
        Kind::Replace => drop_replacing(shared, seat, key, val(20, 0), val(21, 0), stop),
        Kind::Remove => drop_removing(shared, seat, key, stop),
    };
    assert!(rt; came, "{kind:?} at {stop:?}");
}

// Another seat goes on as the object of one thread, and so many of its nodes are kept from it.
fn go_on(
    rt: &impl Abort,
    shared: &Shared,
    seat: Seat,
    pair: (KeyWords, Option<ValWords>),
    kept: u32,
)
    requires ready { IsReady shared.now seat }
{
    let mut seat = seat;
    let (asked, found) = pair;
    assert_eq!(rt; get(rt, shared, &mut seat, asked), found);
    assert_eq!(rt; get(rt, shared, &mut seat, key(1, 0)), Some(val(10, 0)));
    assert_eq!(rt;
        put(rt, shared, &mut seat, key(5, 0), val(50, 0)),
        Insert::Done
    );
    assert_eq!(rt;
        take_out(rt, shared, &mut seat, key(3, 0)),
        Remove::Gone(val(30, 0))
    );
    replace_last(rt, shared, &mut seat);
    assert_eq!(rt;
        get(rt, shared, &mut seat, key(1, 0)),
        Some(val(10 + REPLACES, 0))
    );
    assert_eq!(rt; get(rt, shared, &mut seat, key(3, 0)), None);
    assert_eq!(rt; get(rt, shared, &mut seat, asked), found);
    scan(shared, &mut seat);
    assert_eq!(rt; seat.retired(), kept);
    // Two of the nodes are records beside the bucket's own node.
    assert_eq!(rt; seat.free(), (SHARE - 2).wrapping_sub(kept));
}

fn replace_last(rt: &impl Abort, shared: &Shared, seat: &mut Seat)
    requires ready { IsReady shared.now seat.old }
    ensures ready { IsReady shared.now seat.new }
{
    for times in 0..REPLACES {
        let (old, new) = (val(10 + times, 0), val(11 + times, 0));
        let answer = exchange(rt, shared, seat, key(1, 0), old, new);
        assert_eq!(rt; answer, Replace::Yes);
    }
}

fn others_go_on(
    rt: &impl Abort,
    alloc: Global,
    kind: Kind,
    stop: Stop,
    changed: bool,
    kept: u32,
) -> Result<(), Fail> {
    let (shared, mut first) = opened(alloc, &removing_plan(rt))?;
    let mut second = split(rt, alloc, &shared, &mut first)?;
    let rows = [
        (key(1, 0), val(10, 0), Insert::Done),
        (key(2, 0), val(20, 0), Insert::Done),
        (key(3, 0), val(30, 0), Insert::Done),
    ];
    play(rt, &shared, &mut second, &rows);
    drop_within(rt, &shared, first, kind, stop);
    go_on(
        rt,
        &shared,
        second,
        (key_of(kind), found_of(kind, changed)),
        kept,
    );
    Ok(())
}

#[test]
fn a_dropped_seat_leaves_its_bucket_to_the_others(rt: HostRuntime) -> Result<(), Fail> {
    // Behind the stop: whether the change is there, and the nodes that claims keep: of the first record,
    // of the one that the walk came to, and of the new first one.
    let rows = [
        (Stop::Split, false, [0, 0, 0]),
        (Stop::Read(Reading::Version), false, [0, 0, 0]),
        (Stop::Read(Reading::HalfOfWords), false, [0, 0, 0]),
        (Stop::Read(Reading::Backup), false, [0, 0, 0]),
        (Stop::Claimed, false, [1, 1, 1]),
        (Stop::Change(Changing::Claimed), false, [1, 1, 1]),
        (Stop::Change(Changing::Walked), false, [2, 2, 2]),
        (Stop::Change(Changing::Copied), false, [2, 2, 2]),
        (Stop::Change(Changing::Announced), false, [2, 2, 2]),
        (Stop::Change(Changing::Exchanged), true, [2, 1, 1]),
        (Stop::Change(Changing::Locked), true, [2, 1, 1]),
        (Stop::Change(Changing::HalfCopied), true, [2, 1, 1]),
        (Stop::Change(Changing::Released), true, [2, 1, 1]),
        (Stop::Change(Changing::Unmarked), true, [2, 1, 1]),
    ];
    for (stop, changed, kept) in rows {
        let [inserting, replacing, removing] = kept;
        others_go_on(&rt, rt.alloc(), Kind::Insert, stop, changed, inserting)?;
        others_go_on(&rt, rt.alloc(), Kind::Replace, stop, changed, replacing)?;
        others_go_on(&rt, rt.alloc(), Kind::Remove, stop, changed, removing)?;
    }
    Ok(())
}
