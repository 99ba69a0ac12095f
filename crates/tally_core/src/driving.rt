//! A script, with a worker for each caller.
ghost use Rattle.std.specs.Prelude.{◌≡◌, ◌≤◌, IfOk, length};
ghost use Rattle.big_atomic.specs.Seats.{AreBack, Stays};
ghost use Rattle.call_script.specs.Line.{MayHaveCallers};
ghost use Rattle.call_script.specs.Run.{plan_of};
ghost use Rattle.call_script.specs.Script.{MayRun};
ghost use Rattle.seat_history.specs.Object.{blank_object};
ghost use Rattle.step_rules.specs.Views.{number};
ghost use Rattle.tally_core.specs.Driving.{HasDriven};
ghost use Rattle.tally_core.specs.Workers.{HasCome, HasRun, HaveCome, HaveRun, seats_of};

use crate::calling::call_lines;
use crate::closing::{close_all, contents_of};
use crate::merging::merge_replies;
use crate::opening::{open, plan_for};
use crate::ran::Ran;
use crate::worker::Caller;
use big_atomic::{NoMemory, Shared};
use call_script::{Line, Script};
use std::alloc::{AllocError, Global};
use std::thread::{self, Threads};
use worker_gate::Gate;

/// Calls the lines of a script on a shared object, each caller's by a worker of its own, in a thread of
/// its own where one can be started. A worker passes the gate before each call, and a record still held
/// after a caller's last line is released.
pub fn drive<R: Threads + Sync, G: Gate>(
    rt: &R,
    alloc: Global,
    script: &Script,
    buckets: u32,
    share: u32,
    gate: &G,
) -> Result<Ran, NoMemory>
    requires callers { MayHaveCallers script.now.callers }
    requires may { MayRun script.now.callers blank_object script.now.lines }
    requires few { length script.now.lines ≤ 65536 }
    requires buckets { (1 ≤ buckets) × (buckets ≤ 65536) }
    requires share { (1 ≤ share) × (share ≤ 65536) }
    ensures driven { IfOk result (λ ran. HasDriven (plan_of script.now.callers script.now.lines buckets share) script.now.lines ran.driven ran.closed) }
{
    let lines = script.lines.as_slice();
    let plan = plan_for(script, buckets, share);
    let (shared, callers) = open(alloc, &plan, lines)?;
    let callers = call_all(rt, &shared, callers, lines, gate)?;
    let replies = merge_replies(alloc, lines, &callers)?;
    let closed = close_all(shared, callers);
    let driven = contents_of(alloc, &closed, replies)?;
    Ok(Ran { driven, closed })
}

// Each caller's lines are called by its worker.
fn call_all<R: Threads + Sync, G: Gate>(
    rt: &R,
    shared: &Shared,
    callers: Vec<Caller>,
    lines: &[Line],
    gate: &G,
) -> Result<Vec<Caller>, AllocError>
    requires come { HaveCome shared.now lines.now callers.items }
    requires few { length lines.now ≤ 65536 }
    ensures run { IfOk result (λ all. HaveRun shared.now lines.now all.items) }
    ensures back { IfOk result (λ all. AreBack (seats_of callers.items) (seats_of all.items)) }
{
    let job = |caller: Caller| -> Caller
        requires come { HasCome shared.now lines.now (number caller.seat.view) lines.now caller }
        requires few { length lines.now ≤ 65536 }
        ensures run { HasRun shared.entry.now lines.entry.now (number result.seat.view) result }
        ensures stays { Stays caller.seat result.seat }
    { call_lines(shared, caller, lines, gate) };
    thread::map_vec(rt, callers, &job)
}
