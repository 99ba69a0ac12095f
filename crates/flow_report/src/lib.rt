//! The report of a tally: its text, and reading that text back.
#![tactic(auto)]

mod engine_lines;
mod fields;
mod last;
mod line;
mod number;
mod read_back;
mod report_end;
mod sums;
#[cfg(test)]
mod tests;
mod text;
mod totals;

pub use read_back::{ReadBack, read_report};
pub use report_end::ReportEnd;
pub use text::{report, report_last_line};
pub use totals::Totals;
