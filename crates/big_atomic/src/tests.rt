//! What the calls answer on small objects.
ghost use Rattle.std.specs.Prelude.{◌≡◌, ℕ, List, Option, true, IfOk};
ghost use Rattle.big_atomic.specs.Ready.{IsReady};
ghost use Rattle.seat_history.specs.Object.{MayCall, NamesBelow};
ghost use Rattle.step_rules.specs.Layout.{IsPlan};
ghost use Rattle.step_rules.specs.SeatData.{IsOf};

mod copies;
mod dropped;
mod readers;
mod small_shares;
mod stops;
mod threads;

use crate::{Stored, Swap, compare_and_swap, hold, load, look, release_hold, store};
use hazard_claims::scan;
use seat_history::{Call, Plain, Rec, Reply, WIDTH};
use std::alloc::Global;
use std::process::Abort;
use std::test::Fail;
use step_rules::{Building, Counts, Layout, Plan, Seat, Shared, TooLarge, build};

// A number as a record.
fn rec(x: u64) -> Rec {
    let mut words = [0; WIDTH];
    words[0] = x;
    words
}

const LOAD: Call = Call::Load { reg: 0 };

fn set(new: u64) -> Call {
    Call::Store {
        reg: 0,
        new: rec(new),
    }
}

fn swap(old: u64, new: u64) -> Call {
    Call::Swap {
        reg: 0,
        old: rec(old),
        new: rec(new),
    }
}

// A plan without buckets.
fn plan(rt: &impl Abort, seats: u32, share: u32, registers: u32, changes: u64) -> Plan
    ensures plan { IsPlan result }
    ensures buckets { result.buckets ≡ 0 }
{
    assert!(rt; 0 < seats && seats <= 64);
    assert!(rt; 0 < share && share <= 1 << 22);
    assert!(rt; registers <= 64);
    assert!(rt; changes <= 1 << 32);
    Plan {
        seats,
        share,
        registers,
        buckets: 0,
        changes,
        removes: 0,
    }
}

// Builds the object of a plan.
fn opened(alloc: Global, plan: &Plan) -> Result<(Shared, Seat), Fail>
    requires plan { IsPlan plan.now }
    requires buckets { plan.now.buckets ≡ 0 }
    ensures ready { IfOk result (λ made. IsReady made.0 made.1) }
{
    Ok(build(alloc, plan)?)
}

// Makes a call on a register, or on the held record.
fn answer(rt: &impl Abort, shared: &Shared, seat: &mut Seat, call: Call) -> Reply
    requires ready { IsReady shared.now seat.old }
    ensures ready { IsReady shared.now seat.new }
{
    assert!(rt; 0 < seat.changes_left());
    match call {
        Call::Load { reg } => {
            assert!(rt; reg < shared.plan().registers);
            Reply::Words(load(shared, seat, reg))
        }
        Call::Store { reg, new } => {
            assert!(rt; reg < shared.plan().registers);
            match store(shared, seat, reg, new) {
                Stored::Done => Reply::Done,
                Stored::Full { need, free } => Reply::Full { need, free },
            }
        }
        Call::Swap { reg, old, new } => {
            assert!(rt; reg < shared.plan().registers);
            match compare_and_swap(shared, seat, reg, old, new) {
                Swap::Yes => Reply::Yes,
                Swap::No => Reply::No,
                Swap::Full { need, free } => Reply::Full { need, free },
            }
        }
        Call::Hold { reg } => {
            assert!(rt; reg < shared.plan().registers);
            assert!(rt; !seat.holds_record());
            hold(shared, seat, reg);
            Reply::Done
        }
        Call::Look => {
            assert!(rt; seat.holds_record());
            Reply::Words(look(shared, seat))
        }
        Call::Release => {
            assert!(rt; seat.holds_record());
            release_hold(shared, seat);
            Reply::Done
        }
        _ => panic!(rt; "{call:?} is on a pair"),
    }
}

// Makes calls in turn, each with the reply that is to come.
fn play(rt: &impl Abort, shared: &Shared, seat: &mut Seat, rows: &[(Call, Reply)])
    requires ready { IsReady shared.now seat.old }
    ensures ready { IsReady shared.now seat.new }
{
    for (call, want) in rows {
        let got = answer(rt, shared, seat, *call);
        assert_eq!(rt; got, *want, "at {call:?}");
    }
}

// Cuts a fresh seat in two.
fn split(rt: &impl Abort, alloc: Global, shared: &Shared, seat: &mut Seat) -> Result<Seat, Fail>
    requires ready { IsReady shared.now seat.old }
    ensures ready { IfOk result (λ _. IsReady shared.now seat.new) }
    ensures made { IfOk result (λ made. IsReady shared.now made) }
{
    assert!(rt; seat.fresh());
    assert!(rt; 1 < seat.numbers());
    Ok(shared.split(alloc, seat)?)
}

// Takes a seat into the first one.
fn join(rt: &impl Abort, shared: &Shared, first: &mut Seat, other: Seat)
    requires ours { IsOf shared.now first.old }
    requires theirs { IsOf shared.now other }
    ensures ours { IsOf shared.now first.new }
{
    assert!(rt; first.is_first());
    assert!(rt; first.quiet());
    assert!(rt; other.quiet());
    shared.join(first, other);
}

// Closes an object, whose first register has this record at the end.
fn closes(rt: &impl Abort, shared: Shared, seat: Seat, last: Rec) -> Counts
    requires ours { IsOf shared seat }
{
    let plan = shared.plan();
    assert!(rt; 0 < plan.registers);
    assert_eq!(rt; seat.numbers(), plan.seats);
    assert!(rt; seat.quiet());
    let closed = shared.close(seat);
    assert_eq!(rt; closed.register(0), last);
    let counts = closed.counts();
    assert_eq!(rt; counts.live, plan.registers);
    counts
}

// Closes an object, where so many nodes are free and retired at the end.
fn ends(rt: &impl Abort, shared: Shared, seat: Seat, number: u64, free: u32, retired: u32)
    requires ours { IsOf shared seat }
{
    let counts = closes(rt, shared, seat, rec(number));
    assert_eq!(rt; (counts.free, counts.retired), (free, retired));
}

const FULL: Reply = Reply::Full { need: 1, free: 0 };

const HOLD: Call = Call::Hold { reg: 0 };

#[test]
fn swaps_answer_by_what_is_there(rt: HostRuntime) -> Result<(), Fail> {
    let (shared, mut seat) = opened(rt.alloc(), &plan(&rt, 1, 3, 1, 10))?;
    let rows = [
        (swap(0, 1), Reply::Yes),
        (LOAD, Reply::Words(rec(1))),
        (swap(0, 2), Reply::No),
        (swap(1, 1), Reply::Yes),
        (swap(1, 2), Reply::Yes),
        (swap(2, 3), Reply::Yes),
    ];
    play(&rt, &shared, &mut seat, &rows);
    assert_eq!(rt; (seat.free(), seat.retired()), (0, 3));
    // This call scans, and gets the three nodes back.
    play(&rt, &shared, &mut seat, &[(swap(3, 4), Reply::Yes)]);
    assert_eq!(rt; (seat.free(), seat.retired()), (2, 1));
    assert_eq!(rt; seat.changes_left(), 6);
    ends(&rt, shared, seat, 4, 2, 1);
    Ok(())
}

#[test]
fn two_seats_swap_in_turn(rt: HostRuntime) -> Result<(), Fail> {
    let (shared, mut first) = opened(rt.alloc(), &plan(&rt, 2, 2, 1, 5))?;
    let mut second = split(&rt, rt.alloc(), &shared, &mut first)?;
    assert_eq!(rt; (first.number(), second.number()), (0, 1));
    play(&rt, &shared, &mut second, &[(swap(0, 1), Reply::Yes)]);
    let rows = [(swap(0, 2), Reply::No), (swap(1, 2), Reply::Yes)];
    play(&rt, &shared, &mut first, &rows);
    join(&rt, &shared, &mut first, second);
    assert_eq!(rt; first.changes_left(), 8);
    ends(&rt, shared, first, 2, 2, 2);
    Ok(())
}

#[test]
fn a_held_record_keeps_its_node(rt: HostRuntime) -> Result<(), Fail> {
    let (shared, mut seat) = opened(rt.alloc(), &plan(&rt, 1, 1, 1, 10))?;
    let rows = [
        (HOLD, Reply::Done),
        (set(5), Reply::Done),
        (set(6), FULL),
        (Call::Look, Reply::Words(rec(0))),
        (Call::Release, Reply::Done),
        (set(6), Reply::Done),
    ];
    play(&rt, &shared, &mut seat, &rows);
    scan(&shared, &mut seat);
    ends(&rt, shared, seat, 6, 1, 0);
    Ok(())
}

#[test]
fn another_seat_holds_the_record(rt: HostRuntime) -> Result<(), Fail> {
    let (shared, mut first) = opened(rt.alloc(), &plan(&rt, 2, 1, 1, 10))?;
    let mut second = split(&rt, rt.alloc(), &shared, &mut first)?;
    play(&rt, &shared, &mut second, &[(HOLD, Reply::Done)]);
    let rows = [(set(5), Reply::Done), (set(6), FULL)];
    play(&rt, &shared, &mut first, &rows);
    let rows = [
        (Call::Look, Reply::Words(rec(0))),
        (Call::Release, Reply::Done),
    ];
    play(&rt, &shared, &mut second, &rows);
    play(&rt, &shared, &mut first, &[(set(6), Reply::Done)]);
    join(&rt, &shared, &mut first, second);
    ends(&rt, shared, first, 6, 1, 1);
    Ok(())
}

#[test]
fn one_node_is_enough_for_a_thousand_stores(rt: HostRuntime) -> Result<(), Fail> {
    let (shared, mut seat) = opened(rt.alloc(), &plan(&rt, 1, 1, 1, 1_000))?;
    let mut rows = Vec::new(rt.alloc());
    for number in 1..=1_000 {
        rows.push((set(number), Reply::Done))?;
    }
    play(&rt, &shared, &mut seat, &rows);
    assert_eq!(rt; seat.changes_left(), 0);
    ends(&rt, shared, seat, 1_000, 0, 1);
    Ok(())
}

#[test]
fn too_many_nodes_are_refused(rt: HostRuntime) {
    assert!(rt; Layout::of(&plan(&rt, 64, 1 << 18, 0, 0)).is_ok());
    let plan = plan(&rt, 64, 1 << 18, 1, 0);
    let nodes = 16_777_217;
    assert_eq!(rt; Layout::of(&plan), Err(TooLarge { nodes }));
    assert_eq!(rt;
        build(rt.alloc(), &plan).err(),
        Some(Building::TooLarge { nodes })
    );
}

const REGISTERS: u32 = 3;

// A call with small numbers, so that many a swap is Yes.
fn drawn(draw: u64) -> Call
    ensures there { NamesBelow REGISTERS result }
    ensures free { (held : Option (List ℕ)) → MayCall held result }
{
    let reg = (draw % 3) as u32;
    let old = rec(draw / 9 % 2);
    let new = rec(draw / 18 % 2);
    match draw / 3 % 3 {
        0 => Call::Load { reg },
        1 => Call::Store { reg, new },
        _ => Call::Swap { reg, old, new },
    }
}

// Calls, and what the object of one thread replies to them in turn.
fn plain_rows(alloc: Global) -> Result<Vec<(Call, Reply)>, Fail> {
    let mut plain = Plain::new(alloc, REGISTERS)?;
    let mut rows = Vec::new(alloc);
    let mut draw = 1u64;
    for _ in 0..40 {
        draw = draw
            .wrapping_mul(6_364_136_223_846_793_005)
            .wrapping_add(1_442_695_040_888_963_407);
        let call = drawn(draw >> 33);
        rows.push((call, plain.call(0, call)?))?;
    }
    for reg in 0..REGISTERS {
        rows.push((Call::Load { reg }, Reply::Words(plain.register(reg))))?;
    }
    Ok(rows)
}

#[test]
fn one_seat_answers_as_the_object_of_one_thread(rt: HostRuntime) -> Result<(), Fail> {
    let plan = plan(&rt, 1, 4, REGISTERS, 40);
    let (shared, mut seat) = opened(rt.alloc(), &plan)?;
    let rows = plain_rows(rt.alloc())?;
    play(&rt, &shared, &mut seat, &rows);
    Ok(())
}
