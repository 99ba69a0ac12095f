//! Adds up NetFlow version 5 exports: packets, octets, first and last moment and TCP flags per flow.
#![tactic(auto)]

mod answer;
mod drive;
mod drive_words;
mod gathered;
mod generated;
mod generator;
mod input;
mod laws;
mod message;
mod numbers;
mod output;
mod program;
mod source;
mod status;
mod tally;
mod tally_words;
#[cfg(test)]
mod tests;
mod top;
mod words;

use std::env;
use std::process::ExitCode;
use wire_ports::{FileFeed, StdSink};
use worker_gate::OpenGate;

fn main(rt: HostRuntime) -> ExitCode {
    let mut feed = FileFeed::new(&rt);
    let mut out = StdSink::new(rt.stdout());
    let mut err = StdSink::new(rt.stderr());
    let args = env::args(&rt);
    let code = program::exit_code(
        &rt,
        rt.alloc(),
        args,
        &mut feed,
        &mut out,
        &mut err,
        &OpenGate,
    );
    ExitCode::from(code)
}
