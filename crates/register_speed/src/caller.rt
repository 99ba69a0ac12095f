//! What one thread does.
ghost use Rattle.std.specs.Prelude.{◌≡◌, ◌+◌, ◌<◌};
ghost use Rattle.big_atomic.specs.Ready.{IsReady};
ghost use Rattle.register_speed.specs.Counting.{HasLoaded, IsNext, IsTurn, is_made, loaded_after};
ghost use Rattle.big_atomic.specs.Seats.{Stays};
ghost use Rattle.speed_runs.specs.Carrying.{Leaves};
ghost use Rattle.speed_runs.specs.Runs.{Adds, HasCome};
ghost use Rattle.step_rules.specs.Views.{number};

use crate::asked::Asked;
use crate::turns::{Step, record_of, register_of, step_of};
use big_atomic::{Plan, Rec, Seat, Shared, Stored, Swap, WIDTH, compare_and_swap, load, store};
use speed_runs::{Ran, Work};

// A seat and how many of its calls were made, and the words of its last load.
#[derive(Drop)]
struct Caller {
    ran: Ran,
    loaded: Rec,
}

impl Work for Asked {
    ghost plan = { λ asked. asked.plan };

    ghost filling = { λ asked. 0 };

    ghost calls = { λ asked. asked.calls };

    ghost is_turn = { IsNext };

    ghost is_made = { is_made };

    fn plan(&self) -> Plan {
        self.plan
    }

    fn filling(&self) -> u32 {
        0
    }

    fn calls(&self) -> u32 {
        self.calls
    }

    fn fill(&self, shared: &Shared, ran: Ran) -> Ran {
        ran
    }

    fn make_calls(&self, shared: &Shared, ran: Ran) -> Ran {
        make_calls(shared, ran, self)
    }
}

// Makes all calls of one seat.
fn make_calls(shared: &Shared, ran: Ran, asked: &Asked) -> Ran
    requires plan { shared.now.plan ≡ asked.now.plan }
    requires come { HasCome (IsNext asked.now) is_made shared.now 0 ran.seat ran.done }
    ensures come { HasCome (IsNext asked.now) is_made shared.now asked.now.calls result.seat result.done }
    ensures stays { Stays ran.seat result.seat }
{
    let mut caller = Caller {
        ran,
        loaded: [0; WIDTH],
    };
    for i in 0..asked.calls {
        make_next(shared, &mut caller, asked, i);
    }
    let Caller { ran, .. } = caller;
    ran
}

// Makes call i.
fn make_next(shared: &Shared, caller: &mut Caller, asked: &Asked, i: u32)
    requires plan { shared.now.plan ≡ asked.now.plan }
    requires come { HasLoaded asked.now shared.now i caller.old.ran.seat caller.old.loaded caller.old.ran.done }
    requires more { i < asked.now.calls }
    ensures come { HasLoaded asked.now shared.now (i + 1) caller.new.ran.seat caller.new.loaded caller.new.ran.done }
    ensures stays { Stays caller.old.ran.seat caller.new.ran.seat }
{
    if make_call(shared, &mut caller.ran.seat, &mut caller.loaded, asked, i) {
        caller.ran.done = caller.ran.done.wrapping_add(1);
    }
}

// Makes call i, and answers whether it was made: nothing was where no node is free for it.
fn make_call(shared: &Shared, seat: &mut Seat, loaded: &mut Rec, asked: &Asked, i: u32) -> bool
    requires plan { shared.now.plan ≡ asked.now.plan }
    requires ready { IsReady shared.now seat.old }
    requires left { 0 < seat.old.view.changes }
    ensures adds { Adds (Leaves loaded_after (IsTurn asked.now (number seat.old.view) i) loaded.old loaded.new) is_made shared.now result seat.old seat.new }
{
    let thread = seat.number();
    let reg = register_of(asked, thread, i);
    match step_of(asked.kind, i) {
        Step::Load => {
            *loaded = load(shared, seat, reg);
            true
        }
        Step::Store => store(shared, seat, reg, record_of(thread, i)) == Stored::Done,
        Step::Swap => {
            let new = record_of(thread, i);
            let answer = compare_and_swap(shared, seat, reg, *loaded, new);
            answer == Swap::Yes || answer == Swap::No
        }
    }
}
