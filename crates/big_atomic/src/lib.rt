//! Registers of several words, with atomic loads, stores and compare-and-swaps, and held records.
#![tactic(auto)]

mod answering;
mod answers;
mod changing;
mod claiming;
mod gives;
mod holds;
mod installs;
mod laws;
mod loads;
mod reclaims;
mod seats;
mod starting;
mod stores;
mod swaps;
#[cfg(test)]
mod tests;

pub use answering::{answer_now, stand_now};
pub use answers::{Install, Stored, Swap};
pub use claiming::claim_node;
pub use holds::{hold, look, release_hold};
pub use installs::install;
pub use laws::{
    fresh_is_ready, line_counts, missed_has_seen_more, quiet_is_ready, ready_is_quiet, records_fit,
    register_counts, register_sums,
};
pub use loads::load;
pub use reclaims::reclaim;
pub use seats::{join_all, split_all};
pub use starting::{Start, claim_versioned};
pub use stores::store;
pub use swaps::compare_and_swap;
// All that a user needs beside the calls.
pub use seat_history::{Rec, WIDTH};
pub use step_rules::{
    Building, Closed, Counts, OutOfRange, Place, Plan, Seat, Shared, TooLarge, build,
};
pub use wire_ports::NoMemory;
