//! Ports that fail or move little at a time, and what a run then answers, writes and tells.
ghost use Rattle.std.specs.Prelude.{◌<◌};

use super::{Part, file, words_of};
use crate::status::Status;
use crate::top::run;
use netflow_five::Malformed;
use std::alloc::Global;
use std::process::Abort;
use std::test::Fail;
use std::thread::Threads;
use wire_ports::{MemoryFeed, MemorySink};
use worker_gate::OpenGate;

/// How many bytes a read gives and a write takes at most, and which call of each port fails, if any.
#[derive(Clone, Copy)]
struct Devices {
    read: usize,
    write: usize,
    feed: u32,
    out: u32,
    err: u32,
}

const SOUND: Devices = Devices {
    read: 32,
    write: 8,
    feed: 0,
    out: 0,
    err: 0,
};

const NARROW: Devices = Devices {
    read: 1,
    write: 1,
    ..SOUND
};

/// The report of the one datagram.
const REPORT: &[u8] = b"10.0.0.1 10.0.0.2 1234 80 6 0 1 12 3400 1694498807000 1694498808000 0\n\
                        engine 0 0 flows 1 lost 0 resets 0\n\
                        flows 1 packets 12 octets 3400 records 1 datagrams 1\n";

const NOT_OPENED: &str = "flow_tally: file 1 cannot be opened\n";

const NOT_READ: &str = "flow_tally: file 1 cannot be read\n";

/// What a run over these devices must answer, write and tell; the files are `a` and `b`.
fn device(
    rt: &(impl Abort + Alloc<A = Global> + Threads + Sync),
    line: &str,
    files: (&[Part], &[Part]),
    devices: Devices,
    want: (Status, &[u8], &str),
) -> Result<(), Fail>
    requires read { 0 < devices.read }
    requires write { 0 < devices.write }
{
    let alloc = rt.alloc();
    let words = words_of(alloc, line)?;
    let files = vec![in alloc; file(alloc, "a", files.0)?, file(alloc, "b", files.1)?]?;
    let mut feed = MemoryFeed::new(files, vec![in alloc; devices.feed]?, devices.read);
    let mut out = MemorySink::new(alloc, vec![in alloc; devices.out]?, devices.write, 1 << 10)?;
    let mut err = MemorySink::new(alloc, vec![in alloc; devices.err]?, devices.write, 1 << 10)?;
    let ended = run(rt, alloc, &words, &mut feed, &mut out, &mut err, &OpenGate);
    assert_eq!(rt; ended.status, want.0);
    assert_eq!(rt; out.as_slice(), want.1);
    assert_eq!(rt; err.as_slice(), want.2.as_bytes());
    Ok(())
}

/// Tallies `a` and the one datagram as `b`: each call of the feed from the first number up to the
/// second fails in turn, and each run must end so.
fn failing_calls(
    rt: &(impl Abort + Alloc<A = Global> + Threads + Sync),
    a: Part,
    calls: (u32, u32),
    want: (Status, &str),
) -> Result<(), Fail> {
    let line = "tally --flows 1 --buckets 1 a b";
    for feed in calls.0..calls.1 {
        let devices = Devices { feed, ..SOUND };
        device(
            rt,
            line,
            (&[a], &[Part::One]),
            devices,
            (want.0, b"", want.1),
        )?;
    }
    Ok(())
}

/// A start and four reads come to a file of 71 or 72 bytes: the last read finds its end.
#[test]
fn each_call_of_the_feed_fails(rt: HostRuntime) -> Result<(), Fail> {
    let cut = Malformed::ShortRecords {
        left: 47,
        wanted: 48,
    };
    let bad = Status::BadDatagram {
        file: 1,
        offset: 0,
        cause: cut,
    };
    let told = "flow_tally: file 1 offset 0: short records, 47 bytes left, 48 wanted\n";
    for a in [Part::One, Part::Front(71)] {
        let start = (Status::OpenFault { file: 1 }, NOT_OPENED);
        failing_calls(&rt, a, (1, 2), start)?;
        let read = (Status::ReadFault { file: 1 }, NOT_READ);
        failing_calls(&rt, a, (2, 6), read)?;
    }
    let start = Status::OpenFault { file: 2 };
    let not_opened = "flow_tally: file 2 cannot be opened\n";
    failing_calls(&rt, Part::One, (6, 7), (start, not_opened))?;
    let read = Status::ReadFault { file: 2 };
    let not_read = "flow_tally: file 2 cannot be read\n";
    failing_calls(&rt, Part::One, (7, 11), (read, not_read))?;
    failing_calls(&rt, Part::Front(71), (6, 12), (bad, told))?;
    device(
        &rt,
        "tally a b",
        (&[Part::One], &[Part::One]),
        Devices { feed: 11, ..SOUND },
        (
            Status::Done,
            b"10.0.0.1 10.0.0.2 1234 80 6 0 1 24 6800 1694498807000 1694498808000 0\n\
              engine 0 0 flows 2 lost 0 resets 1\n\
              flows 1 packets 24 octets 6800 records 2 datagrams 2\n",
            "",
        ),
    )
}

/// The report has 158 bytes, so that 20 writes take it.
#[test]
fn each_write_fails(rt: HostRuntime) -> Result<(), Fail> {
    for before in 0..20u32 {
        let written = 8 * before as usize;
        device(
            &rt,
            "tally --flows 1 --buckets 1 a",
            (&[Part::One], &[]),
            Devices {
                out: before + 1,
                ..SOUND
            },
            (
                Status::WriteFault { written },
                REPORT.get(..written).unwrap_or(b""),
                "flow_tally: output cannot be written\n",
            ),
        )?;
    }
    let devices = Devices { out: 21, ..SOUND };
    let files: (&[Part], &[Part]) = (&[Part::One], &[]);
    device(&rt, "tally a", files, devices, (Status::Done, REPORT, ""))
}

/// A name that the feed hasn't, and a message whose first write fails.
#[test]
fn files_that_are_missing_and_messages_that_are_lost(rt: HostRuntime) -> Result<(), Fail> {
    device(
        &rt,
        "tally c",
        (&[], &[]),
        SOUND,
        (Status::OpenFault { file: 1 }, b"", NOT_OPENED),
    )?;
    let status = Status::BadDatagram {
        file: 1,
        offset: 0,
        cause: Malformed::Count { found: 31 },
    };
    device(
        &rt,
        "tally a",
        (&[Part::Records(31)], &[]),
        Devices { err: 1, ..SOUND },
        (status, b"", ""),
    )
}

/// The status of a first file that has another version at this offset.
fn nine_at(offset: usize) -> Status {
    Status::BadDatagram {
        file: 1,
        offset,
        cause: Malformed::Version { found: 9 },
    }
}

/// Pieces of one byte on both sides.
#[test]
fn pieces_of_one_byte(rt: HostRuntime) -> Result<(), Fail> {
    let report = b"192.168.1.10 198.51.100.7 0 2048 1 0 3 5 420 1705032654500 1705032658500 0\n\
                   192.168.1.10 203.0.113.5 49152 443 6 0 3 25 18230 1705032645700 1705032659800 27\n\
                   engine 0 1 flows 2 lost 0 resets 0\n\
                   flows 2 packets 30 octets 18650 records 2 datagrams 1\n";
    device(
        &rt,
        "tally a",
        (&[Part::Real], &[]),
        NARROW,
        (Status::Done, report, ""),
    )?;
    device(
        &rt,
        "tally a",
        (&[Part::Real, Part::Nine], &[]),
        NARROW,
        (
            nine_at(120),
            b"",
            "flow_tally: file 1 offset 120: version 9\n",
        ),
    )
}

#[test]
fn bad_datagrams_in_pieces(rt: HostRuntime) -> Result<(), Fail> {
    device(
        &rt,
        "tally a",
        (&[Part::One, Part::Earlier, Part::Nine, Part::One], &[]),
        SOUND,
        (
            nine_at(144),
            b"",
            "flow_tally: file 1 offset 144: version 9\n",
        ),
    )?;
    device(
        &rt,
        "tally a",
        (&[Part::Nine, Part::One, Part::One], &[]),
        SOUND,
        (nine_at(0), b"", "flow_tally: file 1 offset 0: version 9\n"),
    )?;
    device(
        &rt,
        "tally a",
        (&[Part::Nine, Part::One, Part::One], &[]),
        Devices { feed: 5, ..SOUND },
        (Status::ReadFault { file: 1 }, b"", NOT_READ),
    )
}
