//! The worked examples: words, files, and what a run answers, writes and tells.

mod devices;
mod scripts;
mod trials;
mod workers;

use crate::status::Status;
use crate::top::run;
use netflow_five::Malformed;
use std::alloc::{AllocError, Global};
use std::process::Abort;
use std::test::Fail;
use std::thread::Threads;
use wire_ports::{NamedBytes, SteadyFeed, SteadySink};
use worker_gate::OpenGate;

/// One datagram with one record: 12 packets, 3400 octets, no flags; its first packet came 9, its last 8
/// seconds before the header, whose clock says 1694498816 seconds since 1970.
const ONE: [u8; 72] = [
    0x00, 0x05, 0x00, 0x01, 0x00, 0x00, 0x27, 0x10, 0x65, 0x00, 0x00, 0x00, 0x00, 0x00, 0x00, 0x00,
    0x00, 0x00, 0x00, 0x00, 0x00, 0x00, 0x00, 0x00, 0x0a, 0x00, 0x00, 0x01, 0x0a, 0x00, 0x00, 0x02,
    0x00, 0x00, 0x00, 0x00, 0x00, 0x01, 0x00, 0x00, 0x00, 0x00, 0x00, 0x0c, 0x00, 0x00, 0x0d, 0x48,
    0x00, 0x00, 0x03, 0xe8, 0x00, 0x00, 0x07, 0xd0, 0x04, 0xd2, 0x00, 0x50, 0x00, 0x00, 0x06, 0x00,
    0x00, 0x00, 0x00, 0x00, 0x00, 0x00, 0x00, 0x00,
];

/// A datagram with two records, as an exporter sends it.
const REAL: [u8; 120] = [
    0x00, 0x05, 0x00, 0x02, 0x00, 0x36, 0xee, 0x80, 0x65, 0xa0, 0xbc, 0x00, 0x1d, 0xcd, 0x65, 0x00,
    0x00, 0x00, 0x03, 0xe8, 0x00, 0x01, 0x40, 0x64, 0xc0, 0xa8, 0x01, 0x0a, 0xcb, 0x00, 0x71, 0x05,
    0x0a, 0x00, 0x00, 0xfe, 0x00, 0x03, 0x00, 0x01, 0x00, 0x00, 0x00, 0x19, 0x00, 0x00, 0x47, 0x36,
    0x00, 0x36, 0x08, 0xd0, 0x00, 0x36, 0x3f, 0xe4, 0xc0, 0x00, 0x01, 0xbb, 0x00, 0x1b, 0x06, 0x00,
    0xfd, 0xe8, 0x00, 0x00, 0x18, 0x18, 0x00, 0x00, 0xc0, 0xa8, 0x01, 0x0a, 0xc6, 0x33, 0x64, 0x07,
    0x0a, 0x00, 0x00, 0xfe, 0x00, 0x03, 0x00, 0x01, 0x00, 0x00, 0x00, 0x05, 0x00, 0x00, 0x01, 0xa4,
    0x00, 0x36, 0x2b, 0x30, 0x00, 0x36, 0x3a, 0xd0, 0x00, 0x00, 0x08, 0x00, 0x00, 0x00, 0x01, 0x00,
    0xfd, 0xe8, 0x00, 0x00, 0x18, 0x18, 0x00, 0x00,
];

/// Bytes that files are made of.
#[derive(Clone, Copy)]
enum Part {
    One,
    /// The one record with 3 packets, 600 octets, first 500, last 1500.
    Earlier,
    /// The one record with no packets and no octets.
    Zero,
    /// The one record with 2^32 - 1 packets and one octet.
    Large,
    /// The one record with input interface 2.
    OtherInput,
    /// The one datagram with another version.
    Nine,
    /// The one datagram with this sequence number.
    Numbered(u32),
    /// One datagram with the one record so many times, as its count says.
    Records(u8),
    /// So many first bytes of the one datagram.
    Front(usize),
    /// So many zero bytes.
    Zeros(usize),
    Real,
    /// A text.
    Text(&'static str),
    /// A script of four callers that each swap register 0 from i to i + 1, for i below 200.
    Swaps,
    /// 30 datagrams of 30 records: 300 sources in turn, 1 packet and 40 octets each.
    Sources,
    /// 200 datagrams of 30 records: 3,000 sources in turn, 1 packet and 40 octets each. No read
    /// takes so many bytes.
    Thousands,
}

/// The one record with other numbers.
fn one_with(packets: u32, octets: u32, first: u32, last: u32) -> [u8; 72] {
    let mut bytes = ONE;
    bytes[40..44].copy_from_slice(&packets.to_be_bytes());
    bytes[44..48].copy_from_slice(&octets.to_be_bytes());
    bytes[48..52].copy_from_slice(&first.to_be_bytes());
    bytes[52..56].copy_from_slice(&last.to_be_bytes());
    bytes
}

/// The one datagram with another byte at a place.
fn one_but(at: usize, byte: u8) -> [u8; 72] {
    let mut bytes = ONE;
    if at < bytes.len() {
        bytes[at] = byte;
    }
    bytes
}

/// The one datagram with this sequence number.
fn one_numbered(sequence: u32) -> [u8; 72] {
    let mut bytes = ONE;
    bytes[16..20].copy_from_slice(&sequence.to_be_bytes());
    bytes
}

fn add_records(bytes: &mut Vec<u8>, count: u8) -> Result<(), AllocError> {
    let header = one_but(3, count);
    bytes.extend_from_slice(&header[..24])?;
    let record = &ONE[24..];
    for _ in 0..count {
        bytes.extend_from_slice(record)?;
    }
    Ok(())
}

fn add_sources(bytes: &mut Vec<u8>, records: u32, sources: u32) -> Result<(), AllocError> {
    let header = one_but(3, 30);
    let record = one_with(1, 40, 1000, 2000);
    let (head, rest) = (&header[..24], &record[28..]);
    for i in 0..records {
        if i % 30 == 0 {
            bytes.extend_from_slice(head)?;
        }
        bytes.extend_from_slice(&(0x0a00_0000 | i % sources.max(1)).to_be_bytes())?;
        bytes.extend_from_slice(rest)?;
    }
    Ok(())
}

fn add_swaps(bytes: &mut Vec<u8>) -> Result<(), AllocError> {
    let mut text = String::new(*bytes.allocator());
    text.push_str("callers 4\n")?;
    for caller in 0..4u32 {
        for i in 0..200u32 {
            let next = i + 1;
            writeln!(text, "{caller} swap 0 {i} {next}")?;
        }
    }
    bytes.extend_from_slice(text.as_bytes())
}

fn add_part(bytes: &mut Vec<u8>, part: Part) -> Result<(), AllocError> {
    match part {
        Part::One => bytes.extend_from_slice(&ONE),
        Part::Earlier => bytes.extend_from_slice(&one_with(3, 600, 500, 1500)),
        Part::Zero => bytes.extend_from_slice(&one_with(0, 0, 1000, 2000)),
        Part::Large => bytes.extend_from_slice(&one_with(u32::MAX, 1, 1000, 2000)),
        Part::OtherInput => bytes.extend_from_slice(&one_but(37, 2)),
        Part::Nine => bytes.extend_from_slice(&one_but(1, 9)),
        Part::Numbered(sequence) => bytes.extend_from_slice(&one_numbered(sequence)),
        Part::Records(count) => add_records(bytes, count),
        Part::Front(n) => bytes.extend_from_slice(ONE.get(..n).unwrap_or(&[])),
        Part::Zeros(n) => {
            for _ in 0..n {
                bytes.push(0)?;
            }
            Ok(())
        }
        Part::Real => bytes.extend_from_slice(&REAL),
        Part::Text(text) => bytes.extend_from_slice(text.as_bytes()),
        Part::Swaps => add_swaps(bytes),
        Part::Sources => add_sources(bytes, 900, 300),
        Part::Thousands => add_sources(bytes, 6_000, 3_000),
    }
}

fn file(alloc: Global, name: &str, parts: &[Part]) -> Result<NamedBytes, AllocError> {
    let mut bytes = Vec::new(alloc);
    for part in parts {
        add_part(&mut bytes, *part)?;
    }
    Ok(NamedBytes {
        name: String::from_str(alloc, name)?,
        bytes,
    })
}

/// The words of a line, which spaces part.
fn words_of(alloc: Global, line: &str) -> Result<Vec<String>, AllocError> {
    let mut all = Vec::new(alloc);
    for word in line.split_whitespace() {
        all.push(String::from_str(alloc, word)?)?;
    }
    Ok(all)
}

const USAGE_LINE: &str =
    "flow_tally: usage: tally [--workers W] [--flows F] [--buckets B] FILE... or drive [--buckets B] [--share Q] FILE or trial [--workers W] [--flows F] [--buckets B] START N\n";

/// What a run over ports that never fail must answer, write and tell; the files are `a` and `b`.
fn row(
    rt: &(impl Abort + Alloc<A = Global> + Threads + Sync),
    line: &str,
    a: &[Part],
    b: &[Part],
    want: (Status, &str, &str),
) -> Result<(), Fail> {
    let alloc = rt.alloc();
    let words = words_of(alloc, line)?;
    let files = vec![in alloc; file(alloc, "a", a)?, file(alloc, "b", b)?]?;
    let mut feed = SteadyFeed::new(files);
    let mut out = SteadySink::new(alloc);
    let mut err = SteadySink::new(alloc);
    out.reserve(1 << 18)?;
    err.reserve(1 << 10)?;
    let ended = run(rt, alloc, &words, &mut feed, &mut out, &mut err, &OpenGate);
    assert_eq!(rt; ended.status, want.0);
    assert_eq!(rt; out.as_slice(), want.1.as_bytes());
    assert_eq!(rt; err.as_slice(), want.2.as_bytes());
    Ok(())
}

/// A row that ends Done.
fn done(
    rt: &(impl Abort + Alloc<A = Global> + Threads + Sync),
    line: &str,
    a: &[Part],
    out: &str,
) -> Result<(), Fail> {
    row(rt, line, a, &[], (Status::Done, out, ""))
}

#[test]
fn reports(rt: HostRuntime) -> Result<(), Fail> {
    done(
        &rt,
        "tally a",
        &[],
        "flows 0 packets 0 octets 0 records 0 datagrams 0\n",
    )?;
    done(
        &rt,
        "tally a",
        &[Part::One],
        "10.0.0.1 10.0.0.2 1234 80 6 0 1 12 3400 1694498807000 1694498808000 0\n\
         engine 0 0 flows 1 lost 0 resets 0\n\
         flows 1 packets 12 octets 3400 records 1 datagrams 1\n",
    )?;
    done(
        &rt,
        "tally a",
        &[Part::One, Part::Earlier],
        "10.0.0.1 10.0.0.2 1234 80 6 0 1 15 4000 1694498806500 1694498808000 0\n\
         engine 0 0 flows 2 lost 0 resets 1\n\
         flows 1 packets 15 octets 4000 records 2 datagrams 2\n",
    )?;
    done(
        &rt,
        "tally a",
        &[Part::Records(30)],
        "10.0.0.1 10.0.0.2 1234 80 6 0 1 360 102000 1694498807000 1694498808000 0\n\
         engine 0 0 flows 30 lost 0 resets 0\n\
         flows 1 packets 360 octets 102000 records 30 datagrams 1\n",
    )?;
    done(
        &rt,
        "tally a",
        &[Part::One, Part::OtherInput],
        "10.0.0.1 10.0.0.2 1234 80 6 0 1 12 3400 1694498807000 1694498808000 0\n\
         10.0.0.1 10.0.0.2 1234 80 6 0 2 12 3400 1694498807000 1694498808000 0\n\
         engine 0 0 flows 2 lost 0 resets 1\n\
         flows 2 packets 24 octets 6800 records 2 datagrams 2\n",
    )?;
    done(
        &rt,
        "tally a",
        &[Part::One, Part::Zero],
        "10.0.0.1 10.0.0.2 1234 80 6 0 1 12 3400 1694498807000 1694498808000 0\n\
         engine 0 0 flows 2 lost 0 resets 1\n\
         flows 1 packets 12 octets 3400 records 2 datagrams 2\n",
    )?;
    done(
        &rt,
        "tally --flows 1 a",
        &[Part::Large, Part::Large, Part::Large],
        "10.0.0.1 10.0.0.2 1234 80 6 0 1 12884901885 3 1694498807000 1694498808000 0\n\
         engine 0 0 flows 3 lost 0 resets 2\n\
         flows 1 packets 12884901885 octets 3 records 3 datagrams 3\n",
    )?;
    done(
        &rt,
        "tally a",
        &[Part::Real],
        "192.168.1.10 198.51.100.7 0 2048 1 0 3 5 420 1705032654500 1705032658500 0\n\
         192.168.1.10 203.0.113.5 49152 443 6 0 3 25 18230 1705032645700 1705032659800 27\n\
         engine 0 1 flows 2 lost 0 resets 0\n\
         flows 2 packets 30 octets 18650 records 2 datagrams 1\n",
    )
}

#[test]
fn three_files(rt: HostRuntime) -> Result<(), Fail> {
    let mut lines = String::new(rt.alloc());
    for source in 0..3_000u32 {
        let (high, low) = (source / 256, source % 256);
        let (packets, octets) = if source < 300 { (7, 280) } else { (4, 160) };
        writeln!(
            lines,
            "10.0.{high}.{low} 10.0.0.2 1234 80 6 0 1 {packets} {octets} 1694498807000 1694498808000 0"
        )?;
    }
    lines.push_str("engine 0 0 flows 12900 lost 0 resets 429\n")?;
    lines.push_str("flows 3000 packets 12900 octets 516000 records 12900 datagrams 430\n")?;
    row(
        &rt,
        "tally a b a",
        &[Part::Thousands],
        &[Part::Sources],
        (Status::Done, lines.as_str(), ""),
    )
}

/// A row of two files, each of the one datagram with this sequence number, and what is told of its engine.
fn two_numbered(
    rt: &(impl Abort + Alloc<A = Global> + Threads + Sync),
    sequences: (u32, u32),
    engine: &str,
) -> Result<(), Fail> {
    let mut report = String::new(rt.alloc());
    report.push_str("10.0.0.1 10.0.0.2 1234 80 6 0 1 24 6800 1694498807000 1694498808000 0\n")?;
    report.push_str(engine)?;
    report.push_str("flows 1 packets 24 octets 6800 records 2 datagrams 2\n")?;
    row(
        rt,
        "tally a b",
        &[Part::Numbered(sequences.0)],
        &[Part::Numbered(sequences.1)],
        (Status::Done, report.as_str(), ""),
    )
}

#[test]
fn lost_flows(rt: HostRuntime) -> Result<(), Fail> {
    two_numbered(&rt, (0, 1), "engine 0 0 flows 2 lost 0 resets 0\n")?;
    two_numbered(&rt, (0, 5), "engine 0 0 flows 2 lost 4 resets 0\n")?;
    two_numbered(
        &rt,
        (4_294_967_295, 2),
        "engine 0 0 flows 2 lost 2 resets 0\n",
    )?;
    two_numbered(
        &rt,
        (0, 2_147_483_648),
        "engine 0 0 flows 2 lost 2147483647 resets 0\n",
    )?;
    two_numbered(
        &rt,
        (0, 2_147_483_649),
        "engine 0 0 flows 2 lost 0 resets 1\n",
    )
}

/// A row of one bad file, whose fault stands at this offset.
fn bad(
    rt: &(impl Abort + Alloc<A = Global> + Threads + Sync),
    a: &[Part],
    offset: usize,
    cause: Malformed,
    err: &str,
) -> Result<(), Fail> {
    let status = Status::BadDatagram {
        file: 1,
        offset,
        cause,
    };
    row(rt, "tally a", a, &[], (status, "", err))
}

#[test]
fn bad_datagrams(rt: HostRuntime) -> Result<(), Fail> {
    bad(
        &rt,
        &[Part::Records(31)],
        0,
        Malformed::Count { found: 31 },
        "flow_tally: file 1 offset 0: count 31\n",
    )?;
    bad(
        &rt,
        &[Part::One, Part::Zeros(23)],
        72,
        Malformed::ShortHeader { left: 23 },
        "flow_tally: file 1 offset 72: short header, 23 bytes left\n",
    )?;
    bad(
        &rt,
        &[Part::Front(71)],
        0,
        Malformed::ShortRecords {
            left: 47,
            wanted: 48,
        },
        "flow_tally: file 1 offset 0: short records, 47 bytes left, 48 wanted\n",
    )?;
    bad(
        &rt,
        &[Part::One, Part::One, Part::Nine],
        144,
        Malformed::Version { found: 9 },
        "flow_tally: file 1 offset 144: version 9\n",
    )
}

#[test]
fn several_files(rt: HostRuntime) -> Result<(), Fail> {
    let twice = "10.0.0.1 10.0.0.2 1234 80 6 0 1 24 6800 1694498807000 1694498808000 0\n\
                 engine 0 0 flows 2 lost 0 resets 1\n\
                 flows 1 packets 24 octets 6800 records 2 datagrams 2\n";
    done(&rt, "tally a a", &[Part::One], twice)?;
    done(&rt, "tally a --workers 64 a", &[Part::One], twice)?;
    done(
        &rt,
        "tally --buckets=1 --flows 0001 -- a a",
        &[Part::One],
        twice,
    )?;
    let status = Status::BadDatagram {
        file: 2,
        offset: 72,
        cause: Malformed::Version { found: 9 },
    };
    row(
        &rt,
        "tally a b",
        &[Part::One],
        &[Part::One, Part::Nine],
        (status, "", "flow_tally: file 2 offset 72: version 9\n"),
    )
}

#[test]
fn refusals(rt: HostRuntime) -> Result<(), Fail> {
    row(
        &rt,
        "tally --flows 1 a",
        &[Part::One, Part::OtherInput],
        &[],
        (
            Status::TooManyFlows { limit: 1 },
            "",
            "flow_tally: more than 1 flows\n",
        ),
    )?;
    row(
        &rt,
        "tally --workers 64 --flows 1048576 a",
        &[Part::Nine],
        &[],
        (
            Status::PlanTooLarge { nodes: 134_299_712 },
            "",
            "flow_tally: plan too large: 134299712 nodes\n",
        ),
    )?;
    for line in [
        "",
        "tally",
        "count a",
        "tally --workers 65 a",
        "tally --workers 0 a",
        "tally --flows 1048577 a",
        "tally --flows +5 a",
        "tally --buckets 1 --buckets 1 a",
        "tally --help",
    ] {
        row(
            &rt,
            line,
            &[Part::One],
            &[],
            (Status::Usage, "", USAGE_LINE),
        )?;
    }
    Ok(())
}
