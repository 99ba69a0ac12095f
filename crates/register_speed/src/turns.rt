//! The calls of a thread: what each is, its register, and the record that it brings.
ghost use Rattle.std.specs.Prelude.{◌≡◌, ◌<◌};
ghost use Rattle.register_speed.specs.Turns.{draw_of, register_of, step_of};
ghost use Rattle.speed_runs.specs.Runs.{IsNew};

use crate::asked::{Asked, Kind};
use big_atomic::{Rec, WIDTH};
use speed_runs::draw;

/// What a call is.
#[derive(Clone, Copy, Drop, PartialEq, Eq)]
pub(crate) enum Step {
    Load,
    Store,
    Swap,
}

/// What a thread's call i is. In a mix a compare-and-swap comes after each load, and else after 19.
pub(crate) fn step_of(kind: Kind, i: u32) -> Step
    ensures { result ≡ step_of kind i }
{
    match kind {
        Kind::Load => Step::Load,
        Kind::Store => Step::Store,
        Kind::Mix if i % 2 == 0 => Step::Load,
        Kind::Mix => Step::Swap,
        Kind::Few if i % 20 == 19 => Step::Swap,
        Kind::Few => Step::Load,
    }
}

/// The register of a thread's call i.
pub(crate) fn register_of(asked: &Asked, thread: u32, i: u32) -> u32
    ensures register { result ≡ register_of asked.now thread i }
    ensures there { result < asked.now.plan.registers }
{
    let number = draw(&asked.numbers, asked.calls, thread, draw_of(asked.kind, i));
    (number % u64::from(asked.plan.registers)) as u32
}

// How often the thread drew a register before its call i: a compare-and-swap draws none, but takes that of
// the load before it.
fn draw_of(kind: Kind, i: u32) -> u32
    ensures { result ≡ draw_of kind i }
{
    match kind {
        Kind::Mix => i / 2,
        Kind::Few => i - ((u64::from(i) + 1) / 20) as u32,
        _ => i,
    }
}

/// The record that a thread's call i brings. No other call brings it.
pub(crate) fn record_of(thread: u32, i: u32) -> Rec
    ensures { IsNew thread i result }
{
    let mut new = [0; WIDTH];
    new[0] = u64::from(i) + 1;
    new[1] = u64::from(thread);
    new
}
