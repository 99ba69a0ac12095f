//! Flows: their keys and values, merging, and the fold of pairs by key.
#![tactic(auto)]

mod flow_list;
mod flow_map;
mod key;
mod moment;
mod value;

pub use flow_list::{FlowList, flows_of};
pub use flow_map::{add, fold};
pub use key::{Key, key_of};
pub use value::{VALUE_WORDS, Value, merge, value_of};

#[cfg(test)]
mod tests;
