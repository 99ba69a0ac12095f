use crate::{ReportEnd, Totals, read_report, report, report_last_line};
use flow_fold::{Key, Value};
use netflow_five::EngineLine;
use std::test::Fail;

const fn totals(records: u64, datagrams: u64) -> Totals {
    Totals { records, datagrams }
}

const NONE: &str = "flows 0 packets 0 octets 0 records 0 datagrams 0\n";

const A: (Key, Value) = (
    Key {
        k0: 0x0A00_0001_0A00_0002,
        k1: 0x04D2_0050_0600_0001,
    },
    Value {
        packets: 12,
        octets: 3400,
        first: 1_694_498_807_000,
        last: 1_694_498_808_000,
        flags: 0,
    },
);

const A_TEXT: &str = "10.0.0.1 10.0.0.2 1234 80 6 0 1 12 3400 1694498807000 1694498808000 0\n\
                      engine 0 0 flows 1 lost 0 resets 0\n\
                      flows 1 packets 12 octets 3400 records 1 datagrams 1\n";

// The flows of one datagram of two records.
const TWO: [(Key, Value); 2] = [
    (
        Key {
            k0: 0xC0A8_010A_C633_6407,
            k1: 0x0000_0800_0100_0003,
        },
        Value {
            packets: 5,
            octets: 420,
            first: 1_705_032_654_500,
            last: 1_705_032_658_500,
            flags: 0,
        },
    ),
    (
        Key {
            k0: 0xC0A8_010A_CB00_7105,
            k1: 0xC000_01BB_0600_0003,
        },
        Value {
            packets: 25,
            octets: 18_230,
            first: 1_705_032_645_700,
            last: 1_705_032_659_800,
            flags: 27,
        },
    ),
];

const TWO_TEXT: &str =
    "192.168.1.10 198.51.100.7 0 2048 1 0 3 5 420 1705032654500 1705032658500 0\n\
                        192.168.1.10 203.0.113.5 49152 443 6 0 3 25 18230 1705032645700 1705032659800 27\n\
                        engine 0 1 flows 2 lost 0 resets 0\n\
                        flows 2 packets 30 octets 18650 records 2 datagrams 1\n";

// The greatest numbers, whose sums have more than 64 bits.
const LARGE: [(Key, Value); 2] = [
    (
        Key {
            k0: 0,
            k1: u64::MAX,
        },
        Value {
            packets: u64::MAX,
            octets: u64::MAX,
            first: u64::MAX,
            last: u64::MAX,
            flags: u64::MAX,
        },
    ),
    (
        Key {
            k0: u64::MAX,
            k1: u64::MAX,
        },
        Value {
            packets: u64::MAX,
            octets: u64::MAX,
            first: u64::MAX,
            last: u64::MAX,
            flags: u64::MAX,
        },
    ),
];

const LARGE_TEXT: &str =
    "0.0.0.0 0.0.0.0 65535 65535 255 255 65535 18446744073709551615 18446744073709551615 18446744073709551615 18446744073709551615 18446744073709551615\n\
                          255.255.255.255 255.255.255.255 65535 65535 255 255 65535 18446744073709551615 18446744073709551615 18446744073709551615 18446744073709551615 18446744073709551615\n\
                          engine 0 255 flows 2 lost 2147483647 resets 0\n\
                          engine 255 0 flows 2 lost 0 resets 1\n\
                          engine 255 255 flows 18446744073709551615 lost 18446744073709551615 resets 18446744073709551615\n\
                          flows 2 packets 36893488147419103230 octets 36893488147419103230 records 18446744073709551615 datagrams 0\n";

const A_ENGINE: EngineLine = EngineLine {
    engine_type: 0,
    engine_id: 0,
    flows: 1,
    lost: 0,
    resets: 0,
};

const TWO_ENGINE: EngineLine = EngineLine {
    engine_type: 0,
    engine_id: 1,
    flows: 2,
    lost: 0,
    resets: 0,
};

const ENGINES: [EngineLine; 3] = [
    EngineLine {
        engine_type: 0,
        engine_id: 255,
        flows: 2,
        lost: 2_147_483_647,
        resets: 0,
    },
    EngineLine {
        engine_type: 255,
        engine_id: 0,
        flows: 2,
        lost: 0,
        resets: 1,
    },
    EngineLine {
        engine_type: 255,
        engine_id: 255,
        flows: u64::MAX,
        lost: u64::MAX,
        resets: u64::MAX,
    },
];

#[test]
fn writes_reports(rt: HostRuntime) -> Result<(), Fail> {
    let text = report(rt.alloc(), &[], &[], &totals(0, 0))?;
    assert_eq!(rt; text.as_slice(), NONE.as_bytes());
    let text = report(rt.alloc(), &[A], &[A_ENGINE], &totals(1, 1))?;
    assert_eq!(rt; text.as_slice(), A_TEXT.as_bytes());
    let text = report(rt.alloc(), &TWO, &[TWO_ENGINE], &totals(2, 1))?;
    assert_eq!(rt; text.as_slice(), TWO_TEXT.as_bytes());
    let text = report(rt.alloc(), &LARGE, &ENGINES, &totals(u64::MAX, 0))?;
    assert_eq!(rt; text.as_slice(), LARGE_TEXT.as_bytes());
    Ok(())
}

#[test]
fn writes_the_last_line(rt: HostRuntime) -> Result<(), Fail> {
    let line = report_last_line(rt.alloc(), &TWO, &totals(2, 1))?;
    let want = "flows 2 packets 30 octets 18650 records 2 datagrams 1\n";
    assert_eq!(rt; line.as_slice(), want.as_bytes());
    Ok(())
}

#[test]
fn reads_reports_back(rt: HostRuntime) -> Result<(), Fail> {
    let cases: [(&str, &[(Key, Value)], &[EngineLine], Totals); 4] = [
        (NONE, &[], &[], totals(0, 0)),
        (A_TEXT, &[A], &[A_ENGINE], totals(1, 1)),
        (TWO_TEXT, &TWO, &[TWO_ENGINE], totals(2, 1)),
        (LARGE_TEXT, &LARGE, &ENGINES, totals(u64::MAX, 0)),
    ];
    for (text, flows, engines, totals) in cases {
        let back = read_report(rt.alloc(), text.as_bytes())?;
        assert_eq!(rt; back.flows.as_slice(), flows, "at {text}");
        assert_eq!(rt; back.engines.as_slice(), engines, "at {text}");
        assert_eq!(rt; back.totals, totals, "at {text}");
    }
    Ok(())
}

#[test]
fn finds_bad_lines(rt: HostRuntime) {
    let cases = [
        ("", 1),
        ("\n", 1),
        // no last line
        ("10.0.0.1 10.0.0.2 1234 80 6 0 1 12 3400 1000 2000 0\n", 2),
        // no line feed at the end
        ("10.0.0.1 10.0.0.2 1234 80 6 0 1 12 3400 1000 2000 0", 1),
        ("flows 0 packets 0 octets 0 records 0 datagrams 0", 1),
        // sums that don't agree
        ("flows 1 packets 0 octets 0 records 0 datagrams 0\n", 1),
        (
            "10.0.0.1 10.0.0.2 1234 80 6 0 1 12 3400 1000 2000 0\n\
             flows 1 packets 13 octets 3400 records 1 datagrams 1\n",
            2,
        ),
        // keys that fall, and equal ones
        (
            "192.168.1.10 203.0.113.5 49152 443 6 0 3 25 18230 1705032645700 1705032659800 27\n\
             192.168.1.10 198.51.100.7 0 2048 1 0 3 5 420 1705032654500 1705032658500 0\n\
             flows 2 packets 30 octets 18650 records 2 datagrams 1\n",
            2,
        ),
        (
            "10.0.0.1 10.0.0.2 1234 80 6 0 1 12 3400 1000 2000 0\n\
             10.0.0.1 10.0.0.2 1234 80 6 0 1 12 3400 1000 2000 0\n\
             flows 2 packets 24 octets 6800 records 2 datagrams 1\n",
            2,
        ),
        // no flags, which are there in a second line
        ("10.0.0.1 10.0.0.2 1234 80 6 0 1 12 3400 1000 2000\n0\n", 1),
        // a needless zero, a needless space, numbers out of range
        ("10.0.0.1 10.0.0.02 1234 80 6 0 1 12 3400 1000 2000 0\n", 1),
        ("10.0.0.1  10.0.0.2 1234 80 6 0 1 12 3400 1000 2000 0\n", 1),
        ("10.0.0.256 10.0.0.2 1234 80 6 0 1 12 3400 1000 2000 0\n", 1),
        ("10.0.0.1 10.0.0.2 65536 80 6 0 1 12 3400 1000 2000 0\n", 1),
        (
            "10.0.0.1 10.0.0.2 1234 80 6 0 1 18446744073709551616 3400 1000 2000 0\n",
            1,
        ),
        (
            "10.0.0.1 10.0.0.2 1234 80 6 0 1 12 3400 1000 2000 18446744073709551616\n",
            1,
        ),
        (
            "flows 0 packets 0 octets 0 records 18446744073709551616 datagrams 0\n",
            1,
        ),
        // a last line that isn't the last
        (
            "10.0.0.1 10.0.0.2 1234 80 6 0 1 12 3400 1000 2000 0\n\
             flows 1 packets 12 octets 3400 records 1 datagrams 1\n\
             \n",
            2,
        ),
        (
            "flows 0 packets 0 octets 0 records 0 datagrams 0\n\
             engine 0 0 flows 0 lost 0 resets 0\n",
            1,
        ),
        // engines with no last line, equal ones, and ones that fall by type and by id
        ("engine 0 0 flows 1 lost 0 resets 0\n", 2),
        (
            "engine 0 0 flows 1 lost 0 resets 0\n\
             engine 0 0 flows 1 lost 0 resets 0\n\
             flows 0 packets 0 octets 0 records 0 datagrams 0\n",
            2,
        ),
        (
            "engine 1 0 flows 1 lost 0 resets 0\n\
             engine 0 5 flows 1 lost 0 resets 0\n\
             flows 0 packets 0 octets 0 records 0 datagrams 0\n",
            2,
        ),
        (
            "engine 0 5 flows 1 lost 0 resets 0\n\
             engine 0 4 flows 1 lost 0 resets 0\n\
             flows 0 packets 0 octets 0 records 0 datagrams 0\n",
            2,
        ),
        // a flow behind an engine
        (
            "engine 0 0 flows 1 lost 0 resets 0\n\
             10.0.0.1 10.0.0.2 1234 80 6 0 1 12 3400 1000 2000 0\n\
             flows 1 packets 12 octets 3400 records 1 datagrams 1\n",
            2,
        ),
        // an engine's numbers out of range, and a needless zero
        ("engine 256 0 flows 1 lost 0 resets 0\n", 1),
        ("engine 0 256 flows 1 lost 0 resets 0\n", 1),
        ("engine 0 0 flows 18446744073709551616 lost 0 resets 0\n", 1),
        ("engine 0 0 flows 1 lost 18446744073709551616 resets 0\n", 1),
        ("engine 0 0 flows 1 lost 0 resets 18446744073709551616\n", 1),
        ("engine 0 0 flows 01 lost 0 resets 0\n", 1),
        // no line feed behind an engine
        ("engine 0 0 flows 1 lost 0 resets 0", 1),
    ];
    for (text, line) in cases {
        let end = read_report(rt.alloc(), text.as_bytes()).err();
        assert_eq!(rt; end, Some(ReportEnd::BadLine { line }), "at {text}");
    }
}
