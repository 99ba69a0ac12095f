//! What a measuring program has its threads do.
ghost use Rattle.std.specs.Prelude.{◌≡◌, ◌+◌, ℕ, Bool, List};
ghost use Rattle.big_atomic.specs.Seats.{Stays};
ghost use Rattle.speed_runs.specs.Runs.{HasCome};
ghost use Rattle.step_rules.specs.Layout.{IsPlan};
ghost use Rattle.step_rules.specs.declared.plan.Plan.{Plan};
ghost use Rattle.step_rules.specs.declared.view.Stand.{Stand};

use crate::ran::Ran;
use big_atomic::{Plan, Shared};

/// The calls of all threads on one object.
pub trait Work {
    /// The plan of the object.
    ghost plan: { Self → Plan };

    /// How many calls each thread makes before the timed ones.
    ghost filling: { Self → ℕ };

    /// How many calls of each thread are timed.
    ghost calls: { Self → ℕ };

    /// What may stand next of a thread, after these stands of it.
    ghost is_turn: { Self → ℕ → List Stand → Stand → Type 0 };

    /// Whether a call was made, by its stand.
    ghost is_made: { Stand → Bool };

    /// The plan of the object.
    fn plan(&self) -> Plan
        ensures plan { result ≡ plan self.now }
        ensures fits { IsPlan result };

    /// How many calls each thread makes before the timed ones.
    fn filling(&self) -> u32
        ensures { result ≡ filling self.now };

    /// How many calls of each thread are timed.
    fn calls(&self) -> u32
        ensures { result ≡ calls self.now };

    /// Makes the calls of one thread that aren't timed.
    fn fill(&self, shared: &Shared, ran: Ran) -> Ran
        requires plan { shared.now.plan ≡ plan self.now }
        requires come { HasCome (is_turn self.now) is_made shared.now 0 ran.seat ran.done }
        ensures come { HasCome (is_turn self.now) is_made shared.now (filling self.now) result.seat result.done }
        ensures stays { Stays ran.seat result.seat };

    /// Makes the timed calls of one thread.
    fn make_calls(&self, shared: &Shared, ran: Ran) -> Ran
        requires plan { shared.now.plan ≡ plan self.now }
        requires come { HasCome (is_turn self.now) is_made shared.now (filling self.now) ran.seat ran.done }
        ensures come { HasCome (is_turn self.now) is_made shared.now (filling self.now + calls self.now) result.seat result.done }
        ensures stays { Stays ran.seat result.seat };
}
