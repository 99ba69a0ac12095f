//! What one thread does.
ghost use Rattle.std.specs.Prelude.{◌≡◌, ◌+◌, ◌<◌, ◌≤◌};
ghost use Rattle.big_atomic.specs.Ready.{IsReady};
ghost use Rattle.big_atomic.specs.Seats.{Stays};
ghost use Rattle.speed_runs.specs.Carrying.{Leaves};
ghost use Rattle.speed_runs.specs.Runs.{Adds, HasCome};
ghost use Rattle.step_rules.specs.Views.{number};
ghost use Rattle.table_speed.specs.Counting.{HasFound, IsNext, IsTurn, found_after, is_made};

use crate::asked::Asked;
use crate::turns::{Step, index_of, key_of, step_of, sum_of, value_of};
use cache_hash::{Insert, Plan, Replace, Seat, Shared, ValWords, find, insert, replace};
use speed_runs::{Ran, Work};

// A seat and how many of its calls were made, and what its last find found.
#[derive(Drop)]
struct Caller {
    ran: Ran,
    found: Option<ValWords>,
}

impl Work for Asked {
    ghost plan = { λ asked. asked.plan };

    ghost filling = { λ asked. asked.filling };

    ghost calls = { λ asked. asked.calls };

    ghost is_turn = { IsNext };

    ghost is_made = { is_made };

    fn plan(&self) -> Plan {
        self.plan
    }

    fn filling(&self) -> u32 {
        self.filling
    }

    fn calls(&self) -> u32 {
        self.calls
    }

    fn fill(&self, shared: &Shared, ran: Ran) -> Ran {
        make_calls(shared, ran, self, 0, self.filling)
    }

    fn make_calls(&self, shared: &Shared, ran: Ran) -> Ran {
        make_calls(shared, ran, self, self.filling, self.filling + self.calls)
    }
}

// Makes the calls of one seat from one number, before which it made no find, up to another.
fn make_calls(shared: &Shared, ran: Ran, asked: &Asked, from: u32, to: u32) -> Ran
    requires plan { shared.now.plan ≡ asked.now.plan }
    requires come { HasCome (IsNext asked.now) is_made shared.now from ran.seat ran.done }
    requires order { from ≤ to }
    requires filling { from ≤ asked.now.filling }
    requires within { to ≤ asked.now.filling + asked.now.calls }
    ensures come { HasCome (IsNext asked.now) is_made shared.now to result.seat result.done }
    ensures stays { Stays ran.seat result.seat }
{
    let mut caller = Caller { ran, found: None };
    for i in from..to {
        make_next(shared, &mut caller, asked, i);
    }
    let Caller { ran, .. } = caller;
    ran
}

// Makes call i.
fn make_next(shared: &Shared, caller: &mut Caller, asked: &Asked, i: u32)
    requires plan { shared.now.plan ≡ asked.now.plan }
    requires come { HasFound asked.now shared.now i caller.old.ran.seat caller.old.found caller.old.ran.done }
    requires more { i < asked.now.filling + asked.now.calls }
    ensures come { HasFound asked.now shared.now (i + 1) caller.new.ran.seat caller.new.found caller.new.ran.done }
    ensures stays { Stays caller.old.ran.seat caller.new.ran.seat }
{
    if make_call(shared, &mut caller.ran.seat, &mut caller.found, asked, i) {
        caller.ran.done = caller.ran.done.wrapping_add(1);
    }
}

// Makes call i, and answers whether it was made: nothing was where too few nodes are free for it.
fn make_call(
    shared: &Shared,
    seat: &mut Seat,
    found: &mut Option<ValWords>,
    asked: &Asked,
    i: u32,
) -> bool
    requires plan { shared.now.plan ≡ asked.now.plan }
    requires ready { IsReady shared.now seat.old }
    requires left { 0 < seat.old.view.changes }
    ensures adds { Adds (Leaves found_after (IsTurn asked.now (number seat.old.view) i) found.old found.new) is_made shared.now result seat.old seat.new }
{
    let thread = seat.number();
    let key = key_of(index_of(asked, thread, i));
    match step_of(asked, i, *found) {
        Step::Find => {
            *found = find(shared, seat, key);
            true
        }
        Step::Insert => match insert(shared, seat, key, value_of(thread, i)) {
            Insert::Done | Insert::Present(_) => true,
            Insert::Full { .. } => false,
        },
        Step::Replace(old) => match replace(shared, seat, key, old, sum_of(old, thread, i)) {
            Replace::Yes | Replace::Found(_) | Replace::Absent => true,
            Replace::Full { .. } => false,
        },
    }
}
