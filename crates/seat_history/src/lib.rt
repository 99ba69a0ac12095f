//! The calls and replies of a shared object of registers and pairs, and the object of one thread
//! that says what they mean: whatever an object does for many callers is judged by a history of
//! calls on this one.
#![tactic(auto)]

mod call;
mod entry;
mod key;
mod laws;
mod map;
mod pair_list;
mod pair_map;
mod plain;
mod registers;
mod reply;
mod sorting;
#[cfg(test)]
mod tests;
mod words;

pub use call::Call;
pub use entry::Entry;
pub use key::KeyWords;
pub use laws::{change_is_told, key_order_is_kept, never_full, pair_fills_record, pairs_are_one};
pub use pair_list::PairList;
pub use pair_map::PairMap;
pub use plain::{CALLERS, Plain};
pub use reply::Reply;
pub use words::{Rec, VALUE_WIDTH, ValWords, WIDTH};
