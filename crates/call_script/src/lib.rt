//! Scripts of calls, and the text of what comes of them.
#![tactic(auto)]

mod bad_script;
mod calls;
mod cut;
mod driven;
mod form;
mod holding;
mod laws;
mod lines;
mod lists;
mod number;
mod plain_run;
mod reading;
mod script;
#[cfg(test)]
mod tests;
mod writing;

pub use bad_script::{BadScript, LineCause};
pub use driven::{Driven, PlainRun};
pub use laws::{
    callers_take_turns, closed_lines_run, lines_have_a_plain_run, order_has_one_plain_run,
    replies_tell_the_rest, rows_are_orders, scripts_have_a_run,
};
pub use lists::{LineList, RecList, ReplyList};
pub use plain_run::run_plain;
pub use reading::read_script;
pub use script::{MOST_LINES, REGISTERS, Script};
pub use seat_history::Entry as Line;
pub use step_rules::Counts;
pub use writing::write_replies;
