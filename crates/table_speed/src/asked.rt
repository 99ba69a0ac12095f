//! What is asked of a run.
ghost use Rattle.std.specs.Prelude.{◌≡◌, ◌+◌, ◌^◌, ◌<◌, ◌≤◌, ◌↔◌, IfSome, IsSome};
ghost use Rattle.step_rules.specs.Layout.{IsPlan};
ghost use Rattle.table_speed.specs.Asking.{IsAsked, IsInRange, evens, filling_of};

use cache_hash::Plan;

/// Which calls each thread makes.
#[derive(Clone, Copy, Drop, PartialEq, Eq)]
pub(crate) enum Kind {
    /// Finds. Before them, half of the keys are inserted.
    Find,
    Insert,
    /// Finds and inserts in turn.
    Mix,
    /// Finds, and after each an insert or a replace of the same key by what was found.
    Sum,
    /// Finds, as many keys inserted before them; each 20th call is an insert or a replace, as in a sum.
    Few,
}

/// What is to be done: so many timed calls by each seat of the plan's, with the keys that the numbers
/// draw. Without a file there are no numbers.
#[derive(Drop)]
pub(crate) struct Asked {
    pub(crate) plan: Plan,
    pub(crate) keys: u32,
    /// How many calls each thread makes before the timed ones.
    pub(crate) filling: u32,
    pub(crate) calls: u32,
    pub(crate) kind: Kind,
    pub(crate) numbers: Vec<u32>,
    ghost fits: { IsPlan plan },
    ghost some: { 0 < plan.buckets },
    ghost any: { 0 < keys },
    ghost few: { keys ≤ 2 ^ 24 },
    ghost short: { filling + calls < 2 ^ 32 },
    ghost enough: { plan.changes ≡ filling + calls },
}

impl Asked {
    /// None exactly where a word is out of its range.
    pub(crate) fn of(words: [u32; 5], kind: Kind, numbers: Vec<u32>) -> Option<Asked>
        ensures asked { IfSome result (λ asked.
            IsAsked words kind numbers.items asked.plan asked.keys asked.filling asked.calls asked.kind asked.numbers.items) }
        ensures some { IsSome result ↔ IsInRange words }
    {
        let [seats, buckets, keys, calls, share] = words;
        if seats == 0 || seats > 64 || buckets == 0 || buckets > 1 << 20 {
            return None;
        }
        if keys == 0 || keys > 1 << 24 || calls > 1 << 31 || share == 0 || share > 1 << 22 {
            return None;
        }
        let filling = filling_of(kind, keys, seats);
        let plan = Plan {
            seats,
            share,
            registers: 0,
            buckets,
            changes: u64::from(filling) + u64::from(calls),
            removes: 0,
        };
        Some(Asked {
            plan,
            keys,
            filling,
            calls,
            kind,
            numbers,
        })
    }
}

// How many calls each of so many threads makes before the timed ones.
fn filling_of(kind: Kind, keys: u32, seats: u32) -> u32
    requires some { 0 < seats }
    requires few { keys ≤ 2 ^ 24 }
    requires threads { seats ≤ 64 }
    ensures filling { result ≡ filling_of kind keys seats }
    ensures few { result ≤ 2 ^ 24 }
{
    match kind {
        Kind::Find | Kind::Few => (evens(keys) + seats - 1) / seats,
        _ => 0,
    }
}

/// How many key numbers are even.
pub(crate) fn evens(keys: u32) -> u32
    requires few { keys ≤ 2 ^ 24 }
    ensures { result ≡ evens keys }
{
    (keys + 1) / 2
}
