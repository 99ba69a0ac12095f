use crate::{Draw, Ran, Tallied, TallyEnd, drive, tally};
use call_script::{Counts, read_script};
use flow_fold::{Key, Value, flows_of, fold};
use seat_history::{Rec, Reply, VALUE_WIDTH, ValWords, WIDTH};
use std::alloc::Global;
use std::test::Fail;
use std::thread::Threads;
use worker_gate::{Gate, MeetGate, OpenGate};

// What comes of a script on an object of 16 buckets, where each caller has 8 nodes.
fn ran<R: Threads + Sync, G: Gate>(
    rt: &R,
    alloc: Global,
    script: &str,
    gate: &G,
) -> Result<Ran, Fail> {
    let script = read_script(alloc, script.as_bytes())?;
    Ok(drive(rt, alloc, &script, 16, 8, gate)?)
}

// A record and a value that begin with this word, with zeros behind.
fn rec(first: u64) -> Rec {
    let mut words = [0; WIDTH];
    words[0] = first;
    words
}

fn val(first: u64) -> ValWords {
    let mut words = [0; VALUE_WIDTH];
    words[0] = first;
    words
}

// Each caller calls what the other doesn't.
static TWO_CALLERS: &str =
    "callers 2\n0 hold 3\n1 insert 2 20\n0 store 3 1\n1 insert 2 30\n0 look\n1 replace 2 20 40\n0 swap 3 1 2\n1 remove 2\n1 find 2\n";

#[test]
fn two_callers_meet(rt: HostRuntime) -> Result<(), Fail> {
    let gate = MeetGate::new(67_108_864);
    let Ran { driven, closed } = ran(&rt, rt.alloc(), TWO_CALLERS, &gate)?;
    assert!(rt; gate.met());
    let replies = [
        Reply::Done,
        Reply::Done,
        Reply::Done,
        Reply::Present(val(20)),
        Reply::Words(rec(0)),
        Reply::Yes,
        Reply::Yes,
        Reply::Gone(val(40)),
        Reply::Absent,
    ];
    assert_eq!(rt; driven.replies.as_slice(), replies.as_slice());
    let register = driven.registers.as_slice().get(3).copied();
    assert_eq!(rt; register, Some(rec(2)));
    assert!(rt; driven.pairs.as_slice().is_empty());
    let counts = Counts {
        free: 16,
        live: 32,
        retired: 0,
    };
    assert_eq!(rt; driven.counts, counts);
    assert_eq!(rt; closed.counts(), counts);
    Ok(())
}

#[test]
fn four_callers_count_up(rt: HostRuntime) -> Result<(), Fail> {
    let mut script = String::from_str(rt.alloc(), "callers 4\n")?;
    for caller in 0..4u32 {
        for i in 0..200u32 {
            write!(script, "{caller} swap 0 {i} {}\n", i + 1)?;
        }
    }
    let ran = ran(&rt, rt.alloc(), script.as_str(), &OpenGate)?;
    let replies = ran.driven.replies.as_slice();
    let yes = replies.iter().filter(|reply| **reply == Reply::Yes).count();
    let register = ran.driven.registers.as_slice().first().copied();
    assert_eq!(rt; register, Some(rec(yes as u64)));
    assert_eq!(rt; replies.len(), 800);
    Ok(())
}

// How a tally is made: by so many workers, of so many flows at most, with so many buckets.
#[derive(Clone, Copy, Drop)]
struct Size {
    workers: u32,
    flows: u32,
    buckets: u32,
}

// Tallies pairs within the limits of a tally.
fn tallied<R: Threads + Sync, G: Gate>(
    rt: &R,
    alloc: Global,
    pairs: &[(Key, Value)],
    size: Size,
    gate: &G,
) -> Result<Result<Tallied, TallyEnd>, Fail> {
    let Size {
        workers,
        flows,
        buckets,
    } = size;
    if workers < 1 || workers > 64 || flows < 1 || flows > 1_048_576 {
        return Err(Fail::new("workers or flows"));
    }
    if buckets < 1 || buckets > 1_048_576 || pairs.len() > 8_388_608 {
        return Err(Fail::new("buckets or pairs"));
    }
    if workers * (2 * flows + 4 * workers + 1) + buckets > 16_777_216 {
        return Err(Fail::new("nodes"));
    }
    Ok(tally(rt, alloc, pairs, workers, flows, buckets, gate))
}

// So many pairs, whose keys are as many where this is no multiple of 7919, in no order.
fn some_pairs(alloc: Global, count: u32, keys: u32) -> Result<Vec<(Key, Value)>, Fail> {
    let mut pairs = Vec::new(alloc);
    for i in 0..count {
        let n = i.wrapping_mul(7_919).checked_rem(keys).unwrap_or(0);
        let key = Key {
            k0: u64::from(n % 3),
            k1: u64::from(n),
        };
        let value = Value {
            packets: u64::from(i),
            octets: u64::MAX,
            first: u64::from(i % 101),
            last: u64::from(i % 103),
            flags: 1 << (i % 8),
        };
        pairs.push((key, value))?;
    }
    Ok(pairs)
}

// Workers make of the pairs what one thread makes of them.
fn folds<R: Threads + Sync>(
    rt: &R,
    alloc: Global,
    pairs: &[(Key, Value)],
    size: Size,
) -> Result<bool, Fail> {
    let told = tallied(rt, alloc, pairs, size, &OpenGate)??;
    let flows = flows_of(alloc, &fold(alloc, pairs)?)?;
    Ok(told.flows.as_slice() == flows.as_slice())
}

#[test]
fn workers_fold_as_one_thread(rt: HostRuntime) -> Result<(), Fail> {
    // How many pairs, and how many keys; by so many workers, with so many flows and buckets.
    let rows = [
        (0, 1, 4, 1, 16),
        (1, 1, 64, 1, 1),
        (300, 1, 1, 1, 16),
        (300, 1, 4, 1, 1),
        (300, 300, 2, 300, 1),
        (900, 300, 4, 300, 1),
        (900, 300, 63, 300, 64),
        (2_000, 1_000, 64, 1_000, 512),
        (2_000, 2_000, 4, 4_000, 7),
        // One batch, one and a part, and fewer batches than workers.
        (256, 100, 2, 100, 16),
        (257, 100, 2, 100, 16),
        (512, 1, 1, 1, 1),
        (700, 300, 64, 300, 16),
        (20_000, 1_000, 4, 1_000, 64),
        (20_000, 1_000, 64, 1_000, 64),
    ];
    for (count, keys, workers, flows, buckets) in rows {
        let pairs = some_pairs(rt.alloc(), count, keys)?;
        let size = Size {
            workers,
            flows,
            buckets,
        };
        assert!(rt; folds(&rt, rt.alloc(), pairs.as_slice(), size)?);
    }
    Ok(())
}

#[test]
fn one_key_more_is_too_many(rt: HostRuntime) -> Result<(), Fail> {
    let pairs = some_pairs(rt.alloc(), 900, 300)?;
    for workers in [1, 2, 4, 64] {
        let size = Size {
            workers,
            flows: 299,
            buckets: 16,
        };
        let told = tallied(&rt, rt.alloc(), pairs.as_slice(), size, &OpenGate)?;
        assert!(rt; matches!(told, Err(TallyEnd::TooManyFlows)));
    }
    Ok(())
}

#[test]
fn full_seats_are_too_many_flows(rt: HostRuntime) -> Result<(), Fail> {
    let pairs = some_pairs(rt.alloc(), 2_000, 2_000)?;
    let size = Size {
        workers: 2,
        flows: 1,
        buckets: 1,
    };
    let told = tallied(&rt, rt.alloc(), pairs.as_slice(), size, &OpenGate)?;
    assert!(rt; matches!(told, Err(TallyEnd::TooManyFlows)));
    Ok(())
}

// Workers 0 and 1 meet before their first draw, and again before their second.
#[derive(Drop)]
struct TwoMeetings {
    first: MeetGate,
    second: MeetGate,
}

impl Gate for TwoMeetings {
    fn pass(&self, worker: u32, turn: u32) {
        match turn {
            0 => self.first.pass(worker, 0),
            1 => self.second.pass(worker, 0),
            _ => {}
        }
    }
}

#[test]
fn two_workers_draw_a_batch_each(rt: HostRuntime) -> Result<(), Fail> {
    let gate = TwoMeetings {
        first: MeetGate::new(67_108_864),
        second: MeetGate::new(67_108_864),
    };
    let pairs = some_pairs(rt.alloc(), 512, 1)?;
    let size = Size {
        workers: 2,
        flows: 1,
        buckets: 1,
    };
    let told = tallied(&rt, rt.alloc(), pairs.as_slice(), size, &gate)??;
    assert!(rt; gate.first.met());
    assert!(rt; gate.second.met());
    let flows = flows_of(rt.alloc(), &fold(rt.alloc(), pairs.as_slice())?)?;
    assert_eq!(rt; told.flows.as_slice(), flows.as_slice());
    let draws = told.draws.as_slice();
    let first = draws.first().map(|draw| draw.batch).unwrap_or(2);
    let each = [
        Draw {
            worker: 0,
            batch: first,
        },
        Draw {
            worker: 1,
            batch: 1 - first.min(1),
        },
    ];
    assert_eq!(rt; draws, each.as_slice());
    Ok(())
}

#[test]
fn two_workers_meet(rt: HostRuntime) -> Result<(), Fail> {
    let gate = MeetGate::new(67_108_864);
    let pairs = some_pairs(rt.alloc(), 900, 300)?;
    let size = Size {
        workers: 2,
        flows: 300,
        buckets: 16,
    };
    let told = tallied(&rt, rt.alloc(), pairs.as_slice(), size, &gate)??;
    assert!(rt; gate.met());
    assert_eq!(rt; told.flows.as_slice().len(), 300);
    // Each key has one record, and each empty bucket a node.
    assert_eq!(rt; told.closed.counts().retired, 0);
    assert!(rt; told.closed.counts().live >= 300);
    Ok(())
}
