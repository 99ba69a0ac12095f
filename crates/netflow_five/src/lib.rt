//! NetFlow version 5 export datagrams: decoding them from the bytes of a file, encoding them, and
//! telling by their numbers how many flows were lost.
#![tactic(auto)]

mod collecting;
mod collector;
mod datagram;
mod encoding;
mod engine_line;
mod field;
mod file_end;
mod generator;
mod header;
mod laws;
mod lost_flows;
mod malformed;
mod places;
mod record;
mod refused;
mod seq_mark;
mod streaming;
mod tally;
#[cfg(test)]
mod tests;

pub use collecting::collect_bytes;
pub use collector::Collector;
pub use datagram::{Datagram, decode};
pub use encoding::encode;
pub use engine_line::{EngineLine, EngineList};
pub use file_end::FileEnd;
pub use generator::generate;
pub use header::Header;
pub use laws::{
    a_gap_counts_alone, gaps_lead_on, lines_add_up, losses_are_one_list,
    other_engines_leave_a_line, unbroken_numbers_lose_nothing,
};
pub use lost_flows::losses;
pub use malformed::Malformed;
pub use places::{Places, decode_all};
pub use record::FlowRecord;
pub use refused::Refused;
pub use seq_mark::SeqMark;
pub use streaming::collect_file;
