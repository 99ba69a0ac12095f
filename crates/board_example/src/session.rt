//! The whole program: a seat for each thread, the threads' work, and all seats joined.
ghost use Rattle.std.specs.Prelude.{◌≡◌, ◌≤◌, All, IfOk, IfSome};
ghost use Rattle.big_atomic.specs.Seats.{AreBack, IsUnused, Stays};
ghost use Rattle.board_example.specs.Ending.{IsEnding};
ghost use Rattle.board_example.specs.Rules.{HasDone, seats_of};
ghost use Rattle.step_rules.specs.Layout.{IsPlan};

pub(crate) use crate::closing::Outcome;
use crate::closing::{finish, gather};
use crate::member::{Member, take_part};
use big_atomic::{Plan, Seat, Shared, build, split_all};
use std::alloc::{AllocError, Global};
use std::thread;
use std::thread::Threads;

/// What is to be done: so many rounds by each seat of the plan's.
#[derive(Clone, Copy, Drop)]
pub(crate) struct Asked {
    pub(crate) plan: Plan,
    pub(crate) rounds: u32,
    ghost fits: { IsPlan plan },
    ghost board: { 2 ≤ plan.registers },
}

impl Asked {
    /// None where a number is out of its range. The board has so many registers besides the counter.
    pub(crate) fn of(numbers: [u32; 4]) -> Option<Asked> {
        let [seats, registers, rounds, share] = numbers;
        if seats == 0 || seats > 64 || registers == 0 || registers > 63 {
            return None;
        }
        if share == 0 || share > 1 << 22 || rounds > 1 << 31 {
            return None;
        }
        let plan = Plan {
            seats,
            share,
            registers: registers + 1,
            buckets: 0,
            changes: 2 * u64::from(rounds),
            removes: 0,
        };
        Some(Asked { plan, rounds })
    }
}

/// The counter is the number of counts answered Yes, no reading was torn, and the board is whole. None
/// where memory has no room for the object, or the plan has too many nodes.
pub(crate) fn run<R: Threads + Sync>(
    rt: &R,
    alloc: Global,
    asked: &Asked,
) -> Result<Option<Outcome>, AllocError>
    ensures { IfOk result (λ told. IfSome told (λ outcome. IsEnding asked.now.plan outcome.closed outcome.yes outcome.torn)) }
{
    let Ok((shared, seat)) = build(alloc, &asked.plan) else {
        return Ok(None);
    };
    let Ok(seats) = split_all(alloc, &shared, seat) else {
        return Ok(None);
    };
    let members = take_all(rt, &shared, seats, asked.rounds)?;
    let member = gather(&shared, members);
    Ok(Some(finish(shared, member)))
}

// Has each seat take part in a thread of its own.
fn take_all<R: Threads + Sync>(
    rt: &R,
    shared: &Shared,
    seats: Vec<Seat>,
    rounds: u32,
) -> Result<Vec<Member>, AllocError>
    requires board { 2 ≤ shared.now.plan.registers }
    requires unused { All (IsUnused shared.now) seats.items }
    ensures done { IfOk result (λ members. All (HasDone shared.now) members.items) }
    ensures back { IfOk result (λ members. AreBack seats.items (seats_of members.items)) }
{
    let job = |seat: Seat| -> Member
        requires board { 2 ≤ shared.now.plan.registers }
        requires unused { IsUnused shared.now seat }
        ensures done { HasDone shared.entry.now result }
        ensures stays { Stays seat result.seat }
    { take_part(shared, seat, rounds) };
    thread::map_vec(rt, seats, &job)
}
