//! The inline words of a cell: reads of them without a claim, and their refresh after a change, under the
//! cell's version.
#![tactic(auto)]

mod answers;
mod beginning;
mod reading;
mod refreshing;
#[cfg(test)]
mod tests;

pub use answers::{Inline, Refresh, Stale};
pub use beginning::begin;
pub use reading::read_inline;
pub use refreshing::refresh;
