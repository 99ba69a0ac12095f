//! Threads that make calls on one object, to be timed.
#![tactic(auto)]

mod files;
mod ran;
mod runs;
mod stream;
mod words;
mod work;

pub use ran::Ran;
pub use runs::{Outcome, run};
pub use stream::draw;
pub use words::{Words, print_counts, read_words};
pub use work::Work;
