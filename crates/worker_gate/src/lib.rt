//! What workers share besides the object: gates, where each stops before its turns, and batches, which
//! they draw from one cursor.
#![tactic(auto)]

mod batch_seat;
mod batches;
mod meet_gate;
mod plays;
mod rule;
#[cfg(test)]
mod tests;
mod view;

pub use batch_seat::BatchSeat;
pub use batches::Batches;
pub use meet_gate::MeetGate;
pub use rule::Law;
pub use view::{BatchPlan, BatchView};

/// A worker passes with its number before each turn, counted from 0. Nothing is promised of it.
pub trait Gate: Sync {
    fn pass(&self, worker: u32, turn: u32);
}

/// Lets each worker pass at once.
#[derive(Drop)]
pub struct OpenGate;

impl Gate for OpenGate {
    fn pass(&self, _worker: u32, _turn: u32) {}
}
