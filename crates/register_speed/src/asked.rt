//! What is asked of a run.
ghost use Rattle.std.specs.Prelude.{◌≡◌, ◌<◌, ◌↔◌, IfSome, IsSome};
ghost use Rattle.register_speed.specs.Asking.{IsAsked, IsInRange};
ghost use Rattle.step_rules.specs.Layout.{IsPlan};

use big_atomic::Plan;

/// Which calls each thread makes.
#[derive(Clone, Copy, Drop, PartialEq, Eq)]
pub(crate) enum Kind {
    Load,
    Store,
    /// Loads and compare-and-swaps in turn.
    Mix,
    /// Loads; each 20th call is a compare-and-swap.
    Few,
}

/// What is to be done: so many calls by each seat of the plan's, on the registers that the numbers
/// draw. Without a file there are no numbers.
#[derive(Drop)]
pub(crate) struct Asked {
    pub(crate) plan: Plan,
    pub(crate) calls: u32,
    pub(crate) kind: Kind,
    pub(crate) numbers: Vec<u32>,
    ghost fits: { IsPlan plan },
    ghost flat: { plan.buckets ≡ 0 },
    ghost some: { 0 < plan.registers },
    ghost enough: { plan.changes ≡ calls },
}

impl Asked {
    /// None exactly where a word is out of its range.
    pub(crate) fn of(words: [u32; 4], kind: Kind, numbers: Vec<u32>) -> Option<Asked>
        ensures asked { IfSome result (λ asked. IsAsked words kind numbers.items asked.plan asked.calls asked.kind asked.numbers.items) }
        ensures some { IsSome result ↔ IsInRange words }
    {
        let [seats, registers, calls, share] = words;
        if seats == 0 || seats > 64 || registers == 0 || registers > 64 {
            return None;
        }
        if share == 0 || share > 1 << 22 {
            return None;
        }
        let plan = Plan {
            seats,
            share,
            registers,
            buckets: 0,
            changes: u64::from(calls),
            removes: 0,
        };
        Some(Asked {
            plan,
            calls,
            kind,
            numbers,
        })
    }
}
