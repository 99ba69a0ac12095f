use crate::{Call, KeyWords, Plain, Rec, Reply, VALUE_WIDTH, ValWords, WIDTH};
use std::test::Fail;

// A record that begins and ends with these words, and a value that begins with this one.
fn rec(first: u64, last: u64) -> Rec {
    let mut words = [0; WIDTH];
    words[0] = first;
    words[WIDTH - 1] = last;
    words
}

fn val(first: u64) -> ValWords {
    let mut words = [0; VALUE_WIDTH];
    words[0] = first;
    words
}

#[test]
fn a_held_record_stays(rt: HostRuntime) -> Result<(), Fail> {
    let mut plain = Plain::new(rt.alloc(), 2)?;
    let old = rec(7, 0);
    let new = rec(8, 2);
    assert_eq!(rt;
        plain.call(0, Call::Store { reg: 1, new: old })?,
        Reply::Done
    );
    assert_eq!(rt; plain.call(5, Call::Hold { reg: 1 })?, Reply::Done);
    assert_eq!(rt; plain.call(0, Call::Swap { reg: 1, old, new })?, Reply::Yes);
    assert_eq!(rt; plain.call(5, Call::Look)?, Reply::Words(old));
    assert_eq!(rt; plain.call(5, Call::Release)?, Reply::Done);
    assert_eq!(rt; plain.register(0), [0; WIDTH]);
    assert_eq!(rt; plain.register(1), new);
    Ok(())
}

#[test]
fn pairs_come_by_rising_key(rt: HostRuntime) -> Result<(), Fail> {
    let mut plain = Plain::new(rt.alloc(), 0)?;
    let low = KeyWords {
        k0: 1,
        k1: u64::MAX,
    };
    let high = KeyWords { k0: 2, k1: 0 };
    assert_eq!(rt;
        plain.call(
            0,
            Call::Insert {
                key: high,
                val: val(1)
            }
        )?,
        Reply::Done
    );
    assert_eq!(rt;
        plain.call(
            0,
            Call::Insert {
                key: low,
                val: val(2)
            }
        )?,
        Reply::Done
    );
    assert_eq!(rt;
        plain.call(
            0,
            Call::Insert {
                key: low,
                val: val(3)
            }
        )?,
        Reply::Present(val(2))
    );
    let pairs = plain.pairs(rt.alloc())?;
    assert_eq!(rt;
        pairs.as_slice(),
        [(low, val(2)), (high, val(1))].as_slice()
    );
    Ok(())
}
