//! Ports to the world: feeds that give bytes, sinks that take them, and the counts of their
//! faults. Over memory for tests, and over std's files and streams for the program.
#![tactic(auto)]

mod failing_calls;
mod feed;
mod file_feed;
mod memory_feed;
mod memory_files;
mod memory_sink;
mod named;
mod no_memory;
mod reserved_bytes;
mod sink;
mod std_sink;
mod steady_feed;
mod steady_sink;
mod whole;
mod window;

pub use feed::{Failed, FailedIn, Feed};
pub use file_feed::FileFeed;
pub use memory_feed::MemoryFeed;
pub use memory_sink::MemorySink;
pub use named::NamedBytes;
pub use no_memory::NoMemory;
pub use sink::{PutFailed, Sink, put_all};
pub use std_sink::StdSink;
pub use steady_feed::SteadyFeed;
pub use steady_sink::SteadySink;
pub use whole::{ReadEnd, read_whole};
pub use window::{Window, pass_rest};

#[cfg(test)]
mod tests;
