//! A hash table: a chain of records for each bucket.
#![tactic(auto)]

mod ahead;
mod answers;
mod asked;
mod cells;
mod changes;
mod finds;
mod firsts;
mod inserts;
mod laws;
mod removes;
mod replaces;
#[cfg(test)]
mod tests;
mod turns;
mod updates;

pub use ahead::load_ahead;
pub use answers::{Insert, Remove, Replace, Update};
pub use finds::find;
pub use inserts::insert;
pub use laws::{
    change_fits, few_keys_none_full, found_is_known, key_counts, key_sums,
    late_insert_stands_later, late_replace_stands_later, no_call_is_full, nodes_stay_left,
    unused_has_nodes, unused_is_never_short, update_adds, update_counts, update_fits,
};
pub use removes::remove;
pub use replaces::replace;
pub use updates::update;
// All that a user needs beside the calls.
pub use big_atomic::{
    Building, Closed, Counts, NoMemory, OutOfRange, Plan, Seat, Shared, TooLarge, build, join_all,
    reclaim, split_all,
};
pub use seat_history::{KeyWords, VALUE_WIDTH, ValWords};
pub use step_rules::bucket_index;
