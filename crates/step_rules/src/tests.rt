//! Values from outside: the buckets of keys, an object that nobody has changed, and what is printed.
use crate::{Building, Counts, Plan, bucket_index, build};
use seat_history::{KeyWords, WIDTH};
use std::test::Fail;

#[test]
fn keys_have_these_buckets(rt: HostRuntime) -> Result<(), Fail> {
    let keys = [(0, 0, 0), (1, 0, 9), (2, 0, 2), (0, 1, 5), (1 << 32, 1, 0)];
    for (k0, k1, bucket) in keys {
        assert_eq!(rt; bucket_index(16, KeyWords { k0, k1 }), bucket);
    }
    Ok(())
}

#[test]
fn a_new_object_is_empty(rt: HostRuntime) -> Result<(), Fail> {
    let plan = Plan {
        seats: 1,
        share: 3,
        registers: 2,
        buckets: 16,
        changes: 5,
        removes: 4,
    };
    let (shared, seat) = build(rt.alloc(), &plan)?;
    assert_eq!(rt; shared.plan(), plan);
    assert_eq!(rt;
        bucket_index(shared.plan().buckets, KeyWords { k0: 1, k1: 0 }),
        9
    );
    assert_eq!(rt;
        format!(in rt.alloc(); "{seat:?}")?.as_str(),
        "Seat { number: 0, numbers: 1, .. }"
    );
    let closed = shared.close(seat);
    assert_eq!(rt; closed.register(1), [0; WIDTH]);
    assert!(rt; closed.pairs(rt.alloc())?.as_slice().is_empty());
    assert_eq!(rt;
        closed.counts(),
        Counts {
            free: 3,
            live: 18,
            retired: 0
        }
    );
    Ok(())
}

const PLAN: Plan = Plan {
    seats: 64,
    share: 1 << 22,
    registers: 64,
    buckets: 1 << 20,
    changes: 1 << 32,
    removes: 1 << 20,
};

#[test]
fn refused_plans_print_the_number_and_its_limit(rt: HostRuntime) -> Result<(), Fail> {
    assert!(rt; PLAN.check().is_ok());
    let large = Building::TooLarge { nodes: 16777217 };
    assert_eq!(rt;
        format!(in rt.alloc(); "{large}")?.as_str(),
        "16777217 nodes, and an object has at most 16777216"
    );
    let refused = [
        (Plan { seats: 0, ..PLAN }, "0 seats, and a plan has 1 to 64"),
        (
            Plan { share: 0, ..PLAN },
            "a share of 0 nodes, and a plan has 1 to 4194304",
        ),
        (
            Plan {
                registers: 65,
                ..PLAN
            },
            "65 registers, and a plan has at most 64",
        ),
        (
            Plan {
                buckets: 1048577,
                ..PLAN
            },
            "1048577 buckets, and a plan has at most 1048576",
        ),
        (
            Plan {
                changes: 4294967297,
                removes: 1048577,
                ..PLAN
            },
            "4294967297 changes, and a plan has at most 4294967296",
        ),
        (
            Plan {
                removes: 1048577,
                ..PLAN
            },
            "1048577 removes, and a plan has at most 1048576",
        ),
    ];
    for (plan, text) in refused {
        let told = match plan.check() {
            Ok(()) => format!(in rt.alloc(); "in range")?,
            Err(cause) => format!(in rt.alloc(); "{cause}")?,
        };
        assert_eq!(rt; told.as_str(), text);
    }
    Ok(())
}
