use crate::{FlowList, Key, Value, flows_of, fold, merge, value_of};
use netflow_five::{FlowRecord, Header};
use std::alloc::Global;
use wire_ports::NoMemory;

const LOW: Key = Key { k0: 1, k1: 9 };

const HIGH: Key = Key { k0: 2, k1: 0 };

fn value(packets: u64, octets: u64, first: u64, last: u64, flags: u64) -> Value {
    Value {
        packets,
        octets,
        first,
        last,
        flags,
    }
}

fn folded(alloc: Global, pairs: &[(Key, Value)]) -> Result<FlowList, NoMemory> {
    let flows = fold(alloc, pairs)?;
    flows_of(alloc, &flows)
}

#[test]
fn folds_by_key(rt: HostRuntime) -> Result<(), NoMemory> {
    let widest = value(4_294_967_295, 4_294_967_295, 5, 5, 0);
    let cases: [(&[(Key, Value)], &[(Key, Value)]); 6] = [
        (&[], &[]),
        (
            &[
                (LOW, value(12, 3400, 1000, 2000, 0)),
                (LOW, value(1, 40, 900, 1500, 0)),
            ],
            &[(LOW, value(13, 3440, 900, 2000, 0))],
        ),
        (
            &[(LOW, widest), (LOW, widest), (LOW, widest)],
            &[(LOW, value(12_884_901_885, 12_884_901_885, 5, 5, 0))],
        ),
        (
            &[(LOW, value(0, 0, 7, 3, 0))],
            &[(LOW, value(0, 0, 7, 3, 0))],
        ),
        (
            &[
                (HIGH, value(1, 100, 10, 20, 0)),
                (LOW, value(2, 200, 30, 40, 0)),
                (HIGH, value(3, 300, 5, 15, 0)),
            ],
            &[
                (LOW, value(2, 200, 30, 40, 0)),
                (HIGH, value(4, 400, 5, 20, 0)),
            ],
        ),
        (
            &[(LOW, value(1, 1, 1, 1, 2)), (LOW, value(1, 1, 1, 1, 24))],
            &[(LOW, value(2, 2, 1, 1, 26))],
        ),
    ];
    for (pairs, want) in cases {
        assert_eq!(rt; folded(rt.alloc(), pairs)?.as_slice(), want);
    }
    Ok(())
}

#[test]
fn merges_modulo_two_to_the_64(rt: HostRuntime) {
    let merged = merge(
        value(18_446_744_073_709_551_615, 10, 4_294_967_295, 0, 17),
        value(2, 5, 0, 4_294_967_295, 18),
    );
    assert_eq!(rt; merged, value(1, 15, 0, 4_294_967_295, 19));
}

#[test]
fn has_five_words(rt: HostRuntime) {
    let words = [12, 3400, 1_694_498_807_000, 1_694_498_808_000, 27];
    let value = value(12, 3400, 1_694_498_807_000, 1_694_498_808_000, 27);
    assert_eq!(rt; value.words(), words);
    assert_eq!(rt; Value::of_words(words), value);
}

/// The value of a record under a header that says no more than these.
fn told(header: (u32, u32, u32), first: u32, last: u32, tcp_flags: u8) -> Value {
    let (sys_uptime, unix_secs, unix_nsecs) = header;
    let header = Header {
        sys_uptime,
        unix_secs,
        unix_nsecs,
        flow_sequence: 0,
        engine_type: 0,
        engine_id: 0,
        sampling: 0,
    };
    let flow = FlowRecord {
        srcaddr: 0,
        dstaddr: 0,
        nexthop: 0,
        input: 0,
        output: 0,
        d_pkts: 12,
        d_octets: 3400,
        first,
        last,
        srcport: 0,
        dstport: 0,
        pad1: 0,
        tcp_flags,
        prot: 0,
        tos: 0,
        src_as: 0,
        dst_as: 0,
        src_mask: 0,
        dst_mask: 0,
        pad2: 0,
    };
    value_of(&header, &flow)
}

#[test]
fn tells_moments_by_the_header(rt: HostRuntime) {
    let cases = [
        // uptime, seconds and nanoseconds; first and last; their moments
        (
            (10_000, 1_694_498_816, 0),
            (1000, 2000),
            (1_694_498_807_000, 1_694_498_808_000),
        ),
        (
            (3_600_000, 1_705_032_704, 500_000_000),
            (3_541_200, 3_555_300),
            (1_705_032_645_700, 1_705_032_659_800),
        ),
        // the uptime began again after the first packet
        (
            (500, 1_694_498_816, 0),
            (4_294_967_000, 100),
            (1_694_498_815_204, 1_694_498_815_600),
        ),
        // before 1970
        ((10_000, 0, 0), (1000, 2000), (0, 0)),
    ];
    for (header, (first, last), (first_moment, last_moment)) in cases {
        let want = value(12, 3400, first_moment, last_moment, 27);
        assert_eq!(rt; told(header, first, last, 27), want);
    }
}
