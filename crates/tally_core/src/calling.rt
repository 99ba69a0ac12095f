//! What a caller's worker does, in its own thread.
ghost use Rattle.std.specs.Prelude.{◌≡◌, ◌≤◌, ◌∷◌, [], List, ℕ, length};
ghost use Rattle.big_atomic.specs.Seats.{Stays};
ghost use Rattle.seat_history.specs.declared.entry.Entry.{Entry};
ghost use Rattle.step_rules.specs.Views.{number};
ghost use Rattle.tally_core.specs.Workers.{HasCome, HasRun};

use crate::calls::make_call;
use crate::worker::Caller;
use big_atomic::{Shared, release_hold};
use call_script::Line;
use worker_gate::Gate;

/// Makes the calls of the caller's lines in turn, and releases a record that it holds then. It passes
/// the gate before each. No memory is taken: the replies have their room.
pub(crate) fn call_lines<G: Gate>(
    shared: &Shared,
    caller: Caller,
    lines: &[Line],
    gate: &G,
) -> Caller
    requires come { HasCome shared.now lines.now (number caller.seat.view) lines.now caller }
    requires few { length lines.now ≤ 65536 }
    ensures run { HasRun shared.now lines.now (number result.seat.view) result }
    ensures stays { Stays caller.seat result.seat }
{
    let mut caller = caller;
    for line in lines {
        call_line(shared, &mut caller, line, gate);
    }
    end_hold(shared, &mut caller);
    caller
}

// Makes the call of a line where it is the caller's.
fn call_line<G: Gate>(shared: &Shared, caller: &mut Caller, line: &Line, gate: &G)
    requires come { (lines : List Entry) × (x : ℕ) × (rest : List Entry) × HasCome shared.now lines x (line.now ∷ rest) caller.old × (length lines ≤ 65536) }
    ensures come { (lines : List Entry) (x : ℕ) (rest : List Entry) → HasCome shared.now lines x (line.now ∷ rest) caller.old → HasCome shared.now lines x rest caller.new }
    ensures stays { Stays caller.old.seat caller.new.seat }
{
    let number = caller.seat.number();
    if line.caller != number {
        return;
    }
    let turn = caller.told.len() as u32;
    gate.pass(number, turn);
    let reply = make_call(shared, &mut caller.seat, line.call);
    caller.told.push_reserved(reply);
}

// Releases the record that the caller's lines left held, if any.
fn end_hold(shared: &Shared, caller: &mut Caller)
    requires come { (lines : List Entry) × (x : ℕ) × HasCome shared.now lines x [] caller.old }
    ensures run { (lines : List Entry) (x : ℕ) → HasCome shared.now lines x [] caller.old → HasRun shared.now lines x caller.new }
    ensures stays { Stays caller.old.seat caller.new.seat }
{
    if caller.seat.holds_record() {
        release_hold(shared, &mut caller.seat);
    }
}
