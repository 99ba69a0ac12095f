//! Tallies by any number of workers.

use super::{Part, done, file, row, words_of};
use crate::status::Status;
use crate::top::run;
use std::alloc::{AllocError, Global};
use std::process::Abort;
use std::test::Fail;
use std::thread::Threads;
use wire_ports::{SteadyFeed, SteadySink};
use worker_gate::MeetGate;

/// The report of 900 records of 300 sources.
fn sources_report(alloc: Global) -> Result<String, AllocError> {
    let mut lines = String::new(alloc);
    for source in 0..300u32 {
        let (high, low) = (source / 256, source % 256);
        writeln!(
            lines,
            "10.0.{high}.{low} 10.0.0.2 1234 80 6 0 1 3 120 1694498807000 1694498808000 0"
        )?;
    }
    lines.push_str("engine 0 0 flows 900 lost 0 resets 29\n")?;
    lines.push_str("flows 300 packets 900 octets 36000 records 900 datagrams 30\n")?;
    Ok(lines)
}

/// A tally of 300 flows by so many workers, with as many flows as it may have, and with one flow less.
fn tallies_with(
    rt: &(impl Abort + Alloc<A = Global> + Threads + Sync),
    workers: u32,
    buckets: u32,
    report: &str,
) -> Result<(), Fail> {
    let mut line = String::new(rt.alloc());
    write!(
        line,
        "tally --workers {workers} --buckets {buckets} --flows 300 a"
    )?;
    done(rt, line.as_str(), &[Part::Sources], report)?;
    line.clear();
    write!(
        line,
        "tally --workers {workers} --buckets {buckets} --flows 299 a"
    )?;
    let many = Status::TooManyFlows { limit: 299 };
    let told = "flow_tally: more than 299 flows\n";
    row(rt, line.as_str(), &[Part::Sources], &[], (many, "", told))
}

#[test]
fn any_number_of_workers(rt: HostRuntime) -> Result<(), Fail> {
    let report = sources_report(rt.alloc())?;
    for workers in [1u32, 2, 4, 63, 64] {
        tallies_with(&rt, workers, 256, report.as_str())?;
    }
    // All flows in one chain.
    tallies_with(&rt, 4, 1, report.as_str())
}

#[test]
fn one_flow_of_many_workers(rt: HostRuntime) -> Result<(), Fail> {
    let report = "10.0.0.1 10.0.0.2 1234 80 6 0 1 360 102000 1694498807000 1694498808000 0\n\
                  engine 0 0 flows 30 lost 0 resets 0\n\
                  flows 1 packets 360 octets 102000 records 30 datagrams 1\n";
    done(
        &rt,
        "tally --workers 64 --flows 1 a",
        &[Part::Records(30)],
        report,
    )?;
    done(
        &rt,
        "tally --workers 64 a",
        &[Part::One],
        "10.0.0.1 10.0.0.2 1234 80 6 0 1 12 3400 1694498807000 1694498808000 0\n\
         engine 0 0 flows 1 lost 0 resets 0\n\
         flows 1 packets 12 octets 3400 records 1 datagrams 1\n",
    )
}

/// One record is one batch: the worker that draws none passes the gate as well.
#[test]
fn two_workers_meet(rt: HostRuntime) -> Result<(), Fail> {
    let alloc = rt.alloc();
    let words = words_of(alloc, "tally --workers 2 a")?;
    let files = vec![in alloc; file(alloc, "a", &[Part::One])?]?;
    let mut feed = SteadyFeed::new(files);
    let mut out = SteadySink::new(alloc);
    let mut err = SteadySink::new(alloc);
    out.reserve(1 << 10)?;
    let gate = MeetGate::new(67_108_864);
    let ended = run(&rt, alloc, &words, &mut feed, &mut out, &mut err, &gate);
    assert_eq!(rt; ended.status, Status::Done);
    let report = "10.0.0.1 10.0.0.2 1234 80 6 0 1 12 3400 1694498807000 1694498808000 0\n\
                  engine 0 0 flows 1 lost 0 resets 0\n\
                  flows 1 packets 12 octets 3400 records 1 datagrams 1\n";
    assert_eq!(rt; out.as_slice(), report.as_bytes());
    assert!(rt; gate.met());
    Ok(())
}
