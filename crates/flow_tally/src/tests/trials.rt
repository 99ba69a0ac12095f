//! Trials: tallies of generated datagrams.

use super::{USAGE_LINE, done, row, words_of};
use crate::status::Status;
use crate::top::run;
use netflow_five::generate;
use std::alloc::Global;
use std::process::Abort;
use std::test::Fail;
use std::thread::Threads;
use wire_ports::{NamedBytes, SteadyFeed, SteadySink};
use worker_gate::OpenGate;

#[test]
fn trials(rt: HostRuntime) -> Result<(), Fail> {
    for line in [
        "trial --workers 1 --flows 4096 7 2000",
        "trial --flows 4096 7 2000",
        "trial --workers 64 --flows 4096 7 2000",
    ] {
        done(
            &rt,
            line,
            &[],
            "flows 1024 packets 139042 octets 13904200 records 30900 datagrams 2000\n",
        )?;
    }
    done(
        &rt,
        "trial 7 0",
        &[],
        "flows 0 packets 0 octets 0 records 0 datagrams 0\n",
    )?;
    // Options stand anywhere, and START reaches the last number of 64 bits.
    for line in [
        "trial 7 1",
        "trial 7 --buckets 1 1",
        "trial -- 07 01",
        "trial 18446744073709551615 1",
    ] {
        done(
            &rt,
            line,
            &[],
            "flows 1 packets 1 octets 100 records 1 datagrams 1\n",
        )?;
    }
    Ok(())
}

/// A trial that comes to no line.
fn refused(
    rt: &(impl Abort + Alloc<A = Global> + Threads + Sync),
    line: &str,
    status: Status,
    err: &str,
) -> Result<(), Fail> {
    row(rt, line, &[], &[], (status, "", err))
}

#[test]
fn refused_trials(rt: HostRuntime) -> Result<(), Fail> {
    refused(
        &rt,
        "trial --flows 1023 0 2000",
        Status::TooManyFlows { limit: 1023 },
        "flow_tally: more than 1023 flows\n",
    )?;
    refused(
        &rt,
        "trial --workers 64 --flows 1048576 7 0",
        Status::PlanTooLarge { nodes: 134_299_712 },
        "flow_tally: plan too large: 134299712 nodes\n",
    )?;
    for line in [
        "trial",
        "trial 7",
        "trial 7 8 9",
        "trial 0 65537",
        "trial 18446744073709551616 1",
        "trial +7 1",
        "trial 7 a",
        "trial --share 1 7 1",
        "trial --workers 65 7 1",
    ] {
        refused(&rt, line, Status::Usage, USAGE_LINE)?;
    }
    Ok(())
}

#[test]
fn a_generated_file(rt: HostRuntime) -> Result<(), Fail> {
    let alloc = rt.alloc();
    let words = words_of(alloc, "tally a")?;
    let bytes = generate(alloc, 0, 1)?;
    let name = String::from_str(alloc, "a")?;
    let mut feed = SteadyFeed::new(vec![in alloc; NamedBytes { name, bytes }]?);
    let mut out = SteadySink::new(alloc);
    let mut err = SteadySink::new(alloc);
    out.reserve(1 << 10)?;
    let ended = run(&rt, alloc, &words, &mut feed, &mut out, &mut err, &OpenGate);
    assert_eq!(rt; ended.status, Status::Done);
    let report = "10.0.1.79 192.0.2.79 1359 443 17 0 4 1 100 1699981312123 1699981312249 24\n\
                  engine 0 0 flows 1 lost 0 resets 0\n\
                  flows 1 packets 1 octets 100 records 1 datagrams 1\n";
    assert_eq!(rt; out.as_slice(), report.as_bytes());
    Ok(())
}
