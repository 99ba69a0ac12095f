//! The words of a shared object, the seats of its callers, and one rule over both: each atomic step
//! of a seat keeps it, and what a seat knows by it is what the calls above promise.
#![tactic(auto)]

mod ahead;
mod bucket;
mod closed;
mod counts;
mod last_chains;
mod laws;
mod layout;
mod lists;
mod opening;
mod out_of_range;
mod place;
mod plan;
mod plays;
mod rule;
mod seat;
mod settle;
mod shared;
mod shares;
mod steps;
#[cfg(test)]
mod tests;
mod view;

pub use bucket::bucket_index;
pub use closed::Closed;
pub use counts::Counts;
pub use laws::{
    closed_line_can_be_called, flights_agree, later_found, looks_are_recent, need_is_by_order,
    reads_agree, records_are_in_order, records_are_one, start_is_pinned, untouched_agree,
    versions_agree,
};
pub use layout::{CELL_WIDTH, CLAIMS, END, Layout, MOST_NODES, NODE_WIDTH, TooLarge};
pub use opening::{Building, build};
pub use out_of_range::OutOfRange;
pub use place::Place;
pub use plan::Plan;
pub use rule::Law;
pub use seat::Seat;
pub use shared::Shared;
pub use steps::{
    backup_exchange, backup_load, claim_clear, claim_store, inline_load, inline_store, mark_clear,
    node_glance, node_load, node_store, recheck_load, scan_load, version_again, version_load,
    version_lock, version_release,
};
pub use view::{Claim, Counted, Held, Kind, Look, Reader, Scan, Stage, Stand, View, Writer};
