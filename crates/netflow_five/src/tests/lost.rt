//! What is told of engines by the numbers of their datagrams.

use crate::{EngineLine, SeqMark, decode, losses};
use std::test::Fail;

// A datagram of the engine 0 0 with one flow.
fn one_at(sequence: u32) -> SeqMark {
    mark(0, 0, sequence, 1)
}

fn mark(engine_type: u8, engine_id: u8, sequence: u32, count: u32) -> SeqMark {
    SeqMark {
        engine_type,
        engine_id,
        sequence,
        count,
    }
}

// A line with its engine, flows, lost flows and resets.
fn line(engine_type: u8, engine_id: u8, flows: u64, lost: u64, resets: u64) -> EngineLine {
    EngineLine {
        engine_type,
        engine_id,
        flows,
        lost,
        resets,
    }
}

#[test]
fn tells_lost_flows_and_resets(rt: HostRuntime) -> Result<(), Fail> {
    let half = 1 << 31;
    let cases: [(&[SeqMark], &[EngineLine]); 11] = [
        (&[], &[]),
        (&[one_at(0)], &[line(0, 0, 1, 0, 0)]),
        (&[mark(0, 1, 1000, 2)], &[line(0, 1, 2, 0, 0)]),
        // The same datagram twice.
        (&[one_at(0), one_at(0)], &[line(0, 0, 2, 0, 1)]),
        (&[one_at(0), one_at(5)], &[line(0, 0, 2, 4, 0)]),
        // Past the last number.
        (&[one_at(u32::MAX), one_at(2)], &[line(0, 0, 2, 2, 0)]),
        (
            &[one_at(0), one_at(half)],
            &[line(0, 0, 2, 2_147_483_647, 0)],
        ),
        (&[one_at(0), one_at(half + 1)], &[line(0, 0, 2, 0, 1)]),
        // A reboot after a loss of three.
        (
            &[one_at(7), one_at(11), one_at(0), one_at(1)],
            &[line(0, 0, 4, 3, 1)],
        ),
        // Two datagrams in each other's place: a loss, a reset, and a loss again.
        (
            &[one_at(0), one_at(2), one_at(1), one_at(3)],
            &[line(0, 0, 4, 2, 1)],
        ),
        // Engines in turn.
        (
            &[
                mark(1, 0, 30, 3),
                mark(0, 2, 8, 1),
                mark(0, 1, 5, 2),
                mark(0, 2, 10, 1),
                mark(1, 0, 33, 30),
            ],
            &[
                line(0, 1, 2, 0, 0),
                line(0, 2, 2, 1, 0),
                line(1, 0, 33, 0, 0),
            ],
        ),
    ];
    for (marks, want) in cases {
        assert!(rt; marks.len() <= 5);
        assert_eq!(rt; losses(rt.alloc(), marks)?.as_slice(), want);
    }
    Ok(())
}

#[test]
fn reads_a_mark(rt: HostRuntime) -> Result<(), Fail> {
    assert_eq!(rt; decode(&super::TWO, 0)?.mark(), mark(0, 1, 1000, 2));
    Ok(())
}
