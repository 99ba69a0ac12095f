//! The calls of a thread: what each is, its key, and the value that it brings.
ghost use Rattle.std.specs.Prelude.{◌≡◌, ◌+◌, ◌<◌};
ghost use Rattle.speed_runs.specs.Runs.{IsNew};
ghost use Rattle.table_speed.specs.Turns.{IsSum, draw_of, index_of, key_of, step_after, step_of, timed_step};

use crate::asked::{Asked, Kind, evens};
use cache_hash::{KeyWords, VALUE_WIDTH, ValWords};
use speed_runs::draw;

const MULTIPLIER: u64 = 6_364_136_223_846_793_005;

const INCREMENT: u64 = 1_442_695_040_888_963_407;

/// What a call is.
#[derive(Clone, Copy, Drop, PartialEq, Eq)]
pub(crate) enum Step {
    Find,
    Insert,
    /// A replace of this value.
    Replace(ValWords),
}

/// What a thread's call i is, where its last find found this. The first ones fill the table.
pub(crate) fn step_of(asked: &Asked, i: u32, found: Option<ValWords>) -> Step
    ensures { result ≡ step_of asked.now i found }
{
    if i < asked.filling {
        return Step::Insert;
    }
    timed_step(asked.kind, i - asked.filling, found)
}

// What the timed call i is. In a mix an insert comes after each find, in a sum an insert or a replace, and
// where few calls change after 19 finds.
fn timed_step(kind: Kind, i: u32, found: Option<ValWords>) -> Step
    ensures { result ≡ timed_step kind i found }
{
    match kind {
        Kind::Find => Step::Find,
        Kind::Insert => Step::Insert,
        Kind::Mix if i % 2 == 0 => Step::Find,
        Kind::Mix => Step::Insert,
        Kind::Sum if i % 2 == 0 => Step::Find,
        Kind::Sum => step_after(found),
        Kind::Few if i % 20 == 19 => step_after(found),
        Kind::Few => Step::Find,
    }
}

// What comes after a find that found this.
fn step_after(found: Option<ValWords>) -> Step
    ensures { result ≡ step_after found }
{
    match found {
        None => Step::Insert,
        Some(old) => Step::Replace(old),
    }
}

/// The key number of a thread's call i. The threads fill the table with the even ones in turn.
pub(crate) fn index_of(asked: &Asked, thread: u32, i: u32) -> u32
    ensures { result ≡ index_of asked.now thread i }
{
    if i < asked.filling {
        let place = u64::from(thread) + u64::from(asked.plan.seats) * u64::from(i);
        return 2 * (place % u64::from(evens(asked.keys))) as u32;
    }
    let draws = draw_of(asked.kind, i - asked.filling);
    let number = draw(&asked.numbers, asked.calls, thread, draws);
    (number % u64::from(asked.keys)) as u32
}

// How often the thread drew a key before its timed call i: a change by what was found draws none, but takes
// that find's.
fn draw_of(kind: Kind, i: u32) -> u32
    ensures { result ≡ draw_of kind i }
{
    match kind {
        Kind::Sum => i / 2,
        Kind::Few => i - ((u64::from(i) + 1) / 20) as u32,
        _ => i,
    }
}

/// The key of a key number: the number mixed, and the number.
pub(crate) fn key_of(index: u32) -> KeyWords
    ensures { result ≡ key_of index }
{
    let k1 = u64::from(index);
    let k0 = k1.wrapping_mul(MULTIPLIER).wrapping_add(INCREMENT);
    KeyWords { k0, k1 }
}

/// The value that a thread's call i brings. No other call brings it.
pub(crate) fn value_of(thread: u32, i: u32) -> ValWords
    ensures { IsNew thread i result }
{
    let mut new = [0; VALUE_WIDTH];
    new[0] = u64::from(i) + 1;
    new[1] = u64::from(thread);
    new
}

/// The sum that a thread's call i brings in place of this value.
pub(crate) fn sum_of(old: ValWords, thread: u32, i: u32) -> ValWords
    ensures { IsSum old thread i result }
{
    let mut new = value_of(thread, i);
    new[0] = old[0].wrapping_add(new[0]);
    new
}
