ghost use Rattle.std.specs.Prelude.{◌≡◌, ◌+◌, length};
ghost use Rattle.netflow_five.specs.File.{joined};

mod generated;
mod lost;

use crate::{
    Collector, Datagram, FlowRecord, Header, Malformed, Refused, collect_bytes, decode, decode_all,
    encode,
};
use std::alloc::{AllocError, Global};
use std::test::Fail;
use wire_ports::NoMemory;

// A datagram of one record: 12 packets and 3,400 octets over TCP from 10.0.0.1 port 1234 to 10.0.0.2
// port 80.
const ONE: [u8; 72] = [
    0x00, 0x05, 0x00, 0x01, 0x00, 0x00, 0x27, 0x10, 0x65, 0x00, 0x00, 0x00, 0x00, 0x00, 0x00, 0x00,
    0x00, 0x00, 0x00, 0x00, 0x00, 0x00, 0x00, 0x00, 0x0a, 0x00, 0x00, 0x01, 0x0a, 0x00, 0x00, 0x02,
    0x00, 0x00, 0x00, 0x00, 0x00, 0x01, 0x00, 0x00, 0x00, 0x00, 0x00, 0x0c, 0x00, 0x00, 0x0d, 0x48,
    0x00, 0x00, 0x03, 0xe8, 0x00, 0x00, 0x07, 0xd0, 0x04, 0xd2, 0x00, 0x50, 0x00, 0x00, 0x06, 0x00,
    0x00, 0x00, 0x00, 0x00, 0x00, 0x00, 0x00, 0x00,
];

// A datagram of two records, as a router sends it.
const TWO: [u8; 120] = [
    0x00, 0x05, 0x00, 0x02, 0x00, 0x36, 0xee, 0x80, 0x65, 0xa0, 0xbc, 0x00, 0x1d, 0xcd, 0x65, 0x00,
    0x00, 0x00, 0x03, 0xe8, 0x00, 0x01, 0x40, 0x64, 0xc0, 0xa8, 0x01, 0x0a, 0xcb, 0x00, 0x71, 0x05,
    0x0a, 0x00, 0x00, 0xfe, 0x00, 0x03, 0x00, 0x01, 0x00, 0x00, 0x00, 0x19, 0x00, 0x00, 0x47, 0x36,
    0x00, 0x36, 0x08, 0xd0, 0x00, 0x36, 0x3f, 0xe4, 0xc0, 0x00, 0x01, 0xbb, 0x00, 0x1b, 0x06, 0x00,
    0xfd, 0xe8, 0x00, 0x00, 0x18, 0x18, 0x00, 0x00, 0xc0, 0xa8, 0x01, 0x0a, 0xc6, 0x33, 0x64, 0x07,
    0x0a, 0x00, 0x00, 0xfe, 0x00, 0x03, 0x00, 0x01, 0x00, 0x00, 0x00, 0x05, 0x00, 0x00, 0x01, 0xa4,
    0x00, 0x36, 0x2b, 0x30, 0x00, 0x36, 0x3a, 0xd0, 0x00, 0x00, 0x08, 0x00, 0x00, 0x00, 0x01, 0x00,
    0xfd, 0xe8, 0x00, 0x00, 0x18, 0x18, 0x00, 0x00,
];

const TWO_HEADER: Header = Header {
    sys_uptime: 3_600_000,
    unix_secs: 0x65a0_bc00,
    unix_nsecs: 500_000_000,
    flow_sequence: 1000,
    engine_type: 0,
    engine_id: 1,
    sampling: 0x4064,
};

// TCP from 192.168.1.10 port 49152 to 203.0.113.5 port 443, and a protocol without ports to
// 198.51.100.7.
const TWO_FLOWS: [FlowRecord; 2] = [
    FlowRecord {
        srcaddr: 0xc0a8_010a,
        dstaddr: 0xcb00_7105,
        nexthop: 0x0a00_00fe,
        input: 3,
        output: 1,
        d_pkts: 25,
        d_octets: 18_230,
        first: 3_541_200,
        last: 3_555_300,
        srcport: 49_152,
        dstport: 443,
        pad1: 0,
        tcp_flags: 27,
        prot: 6,
        tos: 0,
        src_as: 65_000,
        dst_as: 0,
        src_mask: 24,
        dst_mask: 24,
        pad2: 0,
    },
    FlowRecord {
        srcaddr: 0xc0a8_010a,
        dstaddr: 0xc633_6407,
        nexthop: 0x0a00_00fe,
        input: 3,
        output: 1,
        d_pkts: 5,
        d_octets: 420,
        first: 3_550_000,
        last: 3_554_000,
        srcport: 0,
        dstport: 2048,
        pad1: 0,
        tcp_flags: 0,
        prot: 1,
        tos: 0,
        src_as: 65_000,
        dst_as: 0,
        src_mask: 24,
        dst_mask: 24,
        pad2: 0,
    },
];

// The first bytes of the datagram of one record with another version and count, and more bytes.
fn altered(
    alloc: Global,
    version: u16,
    count: u16,
    len: usize,
    more: &[u8],
) -> Result<Vec<u8>, AllocError> {
    let mut bytes = Vec::from_slice(alloc, &version.to_be_bytes())?;
    bytes.extend_from_slice(&count.to_be_bytes())?;
    bytes.extend_from_slice(&ONE[4..])?;
    bytes.truncate(len);
    bytes.extend_from_slice(more)?;
    Ok(bytes)
}

fn flows_of(alloc: Global, datagram: &Datagram<'_>) -> Result<Vec<FlowRecord>, AllocError> {
    let mut flows = Vec::new(alloc);
    for i in 0..datagram.count() {
        flows.push(datagram.flow(i))?;
    }
    Ok(flows)
}

#[test]
fn refuses_malformed_files(rt: HostRuntime) -> Result<(), Fail> {
    let alloc = rt.alloc();
    for n in 1..24 {
        let want = Refused::Malformed {
            offset: 0,
            cause: Malformed::ShortHeader { left: n },
        };
        assert_eq!(rt; decode_all(alloc, &ONE[..n]).err(), Some(want));
    }
    for n in 24..72 {
        let want = Refused::Malformed {
            offset: 0,
            cause: Malformed::ShortRecords {
                left: n - 24,
                wanted: 48,
            },
        };
        assert_eq!(rt; decode_all(alloc, &ONE[..n]).err(), Some(want));
    }
    let short_header = |left| Malformed::ShortHeader { left };
    let short_records = |left, wanted| Malformed::ShortRecords { left, wanted };
    let cases: [(u16, u16, usize, &[u8], usize, Malformed); 9] = [
        (0x0500, 1, 72, &[], 0, Malformed::Version { found: 1280 }),
        (9, 0, 72, &[], 0, Malformed::Version { found: 9 }),
        (9, 1, 23, &[], 0, short_header(23)),
        (5, 0, 72, &[], 0, Malformed::Count { found: 0 }),
        (5, 31, 72, &[], 0, Malformed::Count { found: 31 }),
        (5, 65_535, 72, &[], 0, Malformed::Count { found: 65_535 }),
        (5, 2, 72, &[], 0, short_records(48, 96)),
        (5, 1, 72, &[0], 72, short_header(1)),
        (5, 1, 72, &ONE[..24], 72, short_records(0, 48)),
    ];
    for (version, count, len, more, offset, cause) in cases {
        let bytes = altered(alloc, version, count, len, more)?;
        let want = Refused::Malformed { offset, cause };
        assert_eq!(rt;
            decode_all(alloc, &bytes).err(),
            Some(want),
            "{version} {count} {len}"
        );
    }
    Ok(())
}

#[test]
fn finds_the_places_of_datagrams(rt: HostRuntime) -> Result<(), Fail> {
    let alloc = rt.alloc();
    assert!(rt; decode_all(alloc, &[])?.is_empty());
    let mut bytes = Vec::from_slice(alloc, &ONE)?;
    bytes.extend_from_slice(&TWO)?;
    bytes.extend_from_slice(&ONE)?;
    let places = decode_all(alloc, &bytes)?;
    assert_eq!(rt; places.as_slice(), [(0, 1), (72, 2), (192, 1)].as_slice());
    assert_eq!(rt; places.len(), 3);
    assert_eq!(rt; places.at(1), (72, 2));
    Ok(())
}

// How many bytes came in.
#[derive(Drop)]
struct Came {
    bytes: usize,
}

impl Collector for Came {
    ghost holds = { λ came ds. came.bytes ≡ length (joined ds) };

    ghost span = { λ came. came.bytes };

    fn add(&mut self, datagram: &Datagram<'_>) -> Result<(), NoMemory> {
        self.bytes += datagram.size();
        Ok(())
    }
}

#[test]
fn collects_what_stands_in_memory(rt: HostRuntime) -> Result<(), Fail> {
    let mut bytes = Vec::from_slice(rt.alloc(), &TWO)?;
    bytes.extend_from_slice(&ONE)?;
    let mut came = Came { bytes: 0 };
    collect_bytes(&bytes, &mut came)?;
    assert_eq!(rt; came.bytes, 192);
    Ok(())
}

#[test]
fn reads_a_header_and_records(rt: HostRuntime) -> Result<(), Fail> {
    let alloc = rt.alloc();
    let mut bytes = Vec::from_slice(alloc, &ONE)?;
    bytes.extend_from_slice(&TWO)?;
    bytes.push(0)?;
    assert!(rt; bytes.len() > 72);
    let datagram = decode(&bytes, 72)?;
    assert_eq!(rt;
        (datagram.header(), datagram.count(), datagram.size()),
        (TWO_HEADER, 2, 120)
    );
    assert_eq!(rt;
        flows_of(alloc, &datagram)?.as_slice(),
        TWO_FLOWS.as_slice()
    );
    Ok(())
}

#[test]
fn writes_a_header_and_records(rt: HostRuntime) -> Result<(), Fail> {
    let bytes = encode(rt.alloc(), &TWO_HEADER, &TWO_FLOWS)?;
    assert_eq!(rt; bytes.as_slice(), TWO.as_slice());
    Ok(())
}

#[test]
fn writes_what_it_reads(rt: HostRuntime) -> Result<(), Fail> {
    let alloc = rt.alloc();
    // Thirty records, each of 48 distinct bytes.
    let mut bytes = Vec::from_slice(alloc, &[0, 5, 0, 30])?;
    for k in 4..24 + 30 * 48_u32 {
        bytes.push((k % 251) as u8)?;
    }
    assert!(rt; !bytes.is_empty());
    let datagram = decode(&bytes, 0)?;
    let flows = flows_of(alloc, &datagram)?;
    assert_eq!(rt; flows.len(), 30);
    assert_eq!(rt;
        encode(alloc, &datagram.header(), &flows)?.as_slice(),
        bytes.as_slice()
    );
    Ok(())
}

#[test]
fn says_what_is_malformed(rt: HostRuntime) -> Result<(), Fail> {
    for (cause, want) in [
        (
            Malformed::ShortHeader { left: 23 },
            "short header, 23 bytes left",
        ),
        (Malformed::Version { found: 9 }, "version 9"),
        (Malformed::Count { found: 31 }, "count 31"),
        (
            Malformed::ShortRecords {
                left: 0,
                wanted: 48,
            },
            "short records, 0 bytes left, 48 wanted",
        ),
    ] {
        assert_eq!(rt; format!(in rt.alloc(); "{cause}")?.as_str(), want);
    }
    Ok(())
}
