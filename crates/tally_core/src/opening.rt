//! The object of a script, and a caller for each of its seats.
ghost use Rattle.std.specs.Prelude.{◌≡◌, ◌≤◌, ◌^◌, All, IfOk, length};
ghost use Rattle.call_script.specs.Run.{plan_of};
ghost use Rattle.step_rules.specs.Layout.{IsPlan, nodes};
ghost use Rattle.step_rules.specs.Records.{removes_of};
ghost use Rattle.tally_core.specs.Workers.{HasOpened, HasRoom, HasSeats, IsFor, lines_by, removes_in, seats_of};

use crate::worker::Caller;
use big_atomic::{Building, NoMemory, Plan, Seat, Shared, build, split_all};
use call_script::{Line, REGISTERS, Script};
use seat_history::Call;
use std::alloc::Global;

/// The plan of a script's object: a seat a caller, a change a line, and a remove a line that removes.
pub(crate) fn plan_for(script: &Script, buckets: u32, share: u32) -> Plan
    requires few { length script.now.lines ≤ 65536 }
    ensures { result ≡ plan_of script.now.callers script.now.lines buckets share }
{
    let lines = script.lines.as_slice();
    Plan {
        seats: script.callers,
        share,
        registers: REGISTERS,
        buckets,
        changes: lines.len() as u64,
        removes: count_removes(lines),
    }
}

// How many lines remove a pair.
fn count_removes(lines: &[Line]) -> u32
    requires few { length lines.now ≤ 65536 }
    ensures { result ≡ removes_in lines.now }
{
    let mut count = 0;
    for line in lines {
        count += removes_of(&line.call);
    }
    count
}

// How many removes a call spends.
fn removes_of(call: &Call) -> u32
    ensures { result ≡ removes_of call.now }
{
    match call {
        Call::Remove { .. } => 1,
        _ => 0,
    }
}

/// Builds the object of a plan that isn't too large, and gives each of its seats to a caller.
pub(crate) fn open(
    alloc: Global,
    plan: &Plan,
    lines: &[Line],
) -> Result<(Shared, Vec<Caller>), NoMemory>
    requires plan { IsPlan plan.now }
    requires fits { nodes plan.now ≤ 2 ^ 24 }
    requires script { IsFor lines.now plan.now }
    ensures opened { IfOk result (λ made. HasOpened plan.now lines.now made.0 made.1.items) }
{
    let (shared, seats) = open_seats(alloc, plan)?;
    let callers = seat_callers(alloc, seats, lines)?;
    Ok((shared, callers))
}

/// Builds the object of a plan that isn't too large, and a seat for each of its numbers.
pub(crate) fn open_seats(alloc: Global, plan: &Plan) -> Result<(Shared, Vec<Seat>), NoMemory>
    requires plan { IsPlan plan.now }
    requires fits { nodes plan.now ≤ 2 ^ 24 }
    ensures opened { IfOk result (λ made. HasSeats plan.now made.0 made.1.items) }
{
    let (shared, seat) = match build(alloc, plan) {
        Ok(made) => made,
        Err(Building::NoMemory) => return Err(NoMemory),
        Err(Building::TooLarge { .. }) => unreachable!(),
    };
    let seats = split_all(alloc, &shared, seat)?;
    Ok((shared, seats))
}

// A caller for each seat, with room for the replies to its lines.
fn seat_callers(alloc: Global, seats: Vec<Seat>, lines: &[Line]) -> Result<Vec<Caller>, NoMemory>
    ensures seats { IfOk result (λ callers. seats_of callers.items ≡ seats.items) }
    ensures room { IfOk result (λ callers. All (HasRoom lines.now) callers.items) }
{
    let mut callers = Vec::with_capacity(alloc, seats.len())?;
    for seat in seats {
        let count = count_lines(lines, seat.number());
        let told = Vec::with_capacity(alloc, count)?;
        callers.push(Caller { seat, told })?;
    }
    Ok(callers)
}

// How many lines a caller has.
fn count_lines(lines: &[Line], caller: u32) -> usize
    ensures { result ≡ length (lines_by caller lines.now) }
{
    lines.iter().filter(|line| line.caller == caller).count()
}
