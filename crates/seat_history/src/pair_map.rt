ghost use Rattle.std.specs.Prelude.{◌≡◌, All, IfOk, OnOk, OnErr, Some, None, ℕ};
ghost use Rattle.seat_history.specs.Contents.{set_at};
ghost use Rattle.seat_history.specs.Key.{key_number};
ghost use Rattle.seat_history.specs.Pairs.{ArePairsOf, IsPairInRange};
ghost use Rattle.seat_history.specs.Plain.{found_in};

use crate::key::KeyWords;
use crate::pair_list::PairList;
use crate::sorting::{first_pairs, sort_latest_first};
use crate::words::ValWords;
use std::alloc::Global;
use wire_ports::NoMemory;

/// Values under keys, given once and listed at the end. `found_in` says which key has which.
#[derive(Drop)]
pub struct PairMap {
    /// The pairs given, in order. Of a key's values the last one counts.
    given: Vec<(KeyWords, ValWords)>,
}

impl PairMap {
    /// No key has a value.
    pub fn new(alloc: Global) -> PairMap
        ensures { (number : ℕ) → found_in result number ≡ None }
    {
        PairMap {
            given: Vec::new(alloc),
        }
    }

    /// Gives a key a value. Where memory runs out, everything stays as it was.
    pub fn insert(&mut self, key: KeyWords, val: ValWords) -> Result<(), NoMemory>
        ensures ok { OnOk result (found_in self.new ≡ set_at (found_in self.old) (key_number key) (Some val)) }
        ensures err { OnErr result (found_in self.new ≡ found_in self.old) }
    {
        self.given.push((key, val))?;
        Ok(())
    }

    /// The pairs, by rising key.
    pub fn into_pairs(self, alloc: Global) -> Result<PairList, NoMemory>
        ensures pairs { IfOk result (λ pairs. ArePairsOf (found_in self) pairs) }
        ensures in_range { IfOk result (λ pairs. All IsPairInRange pairs) }
    {
        let mut given = self.given;
        sort_latest_first(&mut given)?;
        Ok(PairList::of_vec(first_pairs(alloc, &given)?))
    }
}
