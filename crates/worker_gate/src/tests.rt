use crate::{Batches, Gate, MeetGate, OpenGate};
use std::test::Fail;
use std::thread::join;

// Passes so many turns.
fn pass_all<G: Gate>(gate: &G, worker: u32) {
    for turn in 0..3 {
        gate.pass(worker, turn);
    }
}

#[test]
fn two_threads_meet(rt: HostRuntime) -> Result<(), Fail> {
    let gate = MeetGate::new(67_108_864);
    join(&rt, || pass_all(&gate, 0), || pass_all(&gate, 1));
    assert!(rt; gate.met());
    Ok(())
}

#[test]
fn one_alone_goes_on(rt: HostRuntime) -> Result<(), Fail> {
    let gate = MeetGate::new(1_000);
    pass_all(&gate, 0);
    assert!(rt; !gate.met());
    // The second comes too late for the first to see it.
    pass_all(&gate, 1);
    assert!(rt; !gate.met());
    Ok(())
}

#[test]
fn others_and_later_turns_meet_nobody(rt: HostRuntime) -> Result<(), Fail> {
    let gate = MeetGate::new(1);
    pass_all(&OpenGate, 0);
    gate.pass(2, 0);
    gate.pass(0, 1);
    gate.pass(1, 1);
    assert!(rt; !gate.met());
    Ok(())
}

#[test]
fn each_batch_is_drawn_once(rt: HostRuntime) -> Result<(), Fail> {
    let (three, mut alone) = Batches::new(rt.alloc(), 3, 1)?;
    let drawn = [
        three.next(&mut alone),
        three.next(&mut alone),
        three.next(&mut alone),
        three.next(&mut alone),
        three.next(&mut alone),
    ];
    assert_eq!(rt; drawn, [Some(0), Some(1), Some(2), None, None]);

    let (two, mut first) = Batches::new(rt.alloc(), 2, 2)?;
    let mut second = two.split(&mut first);
    let drawn = [
        two.next(&mut second),
        two.next(&mut first),
        two.next(&mut second),
        two.next(&mut first),
    ];
    assert_eq!(rt; drawn, [Some(0), Some(1), None, None]);
    two.join(&mut first, second);
    assert_eq!(rt; two.next(&mut first), None);

    let (none, mut alone) = Batches::new(rt.alloc(), 0, 1)?;
    assert_eq!(rt; none.next(&mut alone), None);
    Ok(())
}
