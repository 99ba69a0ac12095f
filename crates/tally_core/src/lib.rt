//! Workers on one shared object: the calls of a script, each caller's in a thread of its own, and pairs
//! added up by several.
#![tactic(auto)]

mod adding;
mod ahead;
mod calling;
mod calls;
mod closing;
mod drawing;
mod draws;
mod driving;
mod laws;
mod merging;
mod opening;
mod ran;
mod replies;
mod sharing;
mod tallying;
#[cfg(test)]
mod tests;
mod worker;

pub use draws::{Draw, DrawList};
pub use driving::drive;
pub use laws::script_plan_fits;
pub use ran::Ran;
pub use tallying::{Tallied, TallyEnd, tally};
