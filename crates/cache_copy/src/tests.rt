//! Reads by inline words of an object that nobody has changed.
use crate::{Inline, begin, read_inline};
use std::test::Fail;
use step_rules::{END, NODE_WIDTH, Plan, build};

#[test]
fn a_new_object_is_read_by_its_inline_words(rt: HostRuntime) -> Result<(), Fail> {
    let plan = Plan {
        seats: 1,
        share: 1,
        registers: 1,
        buckets: 1,
        changes: 1,
        removes: 0,
    };
    let (shared, mut seat) = build(rt.alloc(), &plan)?;
    assert_eq!(rt; begin(&shared, &mut seat, 1), 0);
    let register = read_inline(&shared, &mut seat, 0);
    assert_eq!(rt; register, Inline::Words([0; NODE_WIDTH]));
    let bucket = read_inline(&shared, &mut seat, 1);
    let mut words = [0; NODE_WIDTH];
    words[NODE_WIDTH - 1] = END;
    assert_eq!(rt; bucket, Inline::Words(words));
    Ok(())
}
