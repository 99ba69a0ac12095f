ghost use Rattle.std.specs.Prelude.{IfErr, MatchResult};
ghost use Rattle.step_rules.specs.Layout.{IsPlan};
ghost use Rattle.step_rules.specs.Ranges.{IsFirstOutOfRange};

use crate::out_of_range::OutOfRange;

/// The sizes of a shared object: seats 1 to 64, share 1 to 2^22, at most 64 registers, 2^20 buckets,
/// 2^32 changes and 2^20 removes.
#[derive(Clone, Copy, Debug, PartialEq, Eq)]
pub struct Plan {
    /// How many callers' numbers there are.
    pub seats: u32,
    /// How many free nodes each number starts with.
    pub share: u32,
    pub registers: u32,
    pub buckets: u32,
    /// How many changes each number may make.
    pub changes: u64,
    /// How many removes each number may make.
    pub removes: u32,
}

impl Plan {
    /// Ok exactly where each number is in its range, as `build` asks; else the first one that isn't, in
    /// the order of the fields.
    pub fn check(&self) -> Result<(), OutOfRange>
        ensures plan { MatchResult result (λ _. IsPlan self.now) (λ _. ¬ (IsPlan self.now)) }
        ensures first { IfErr result (IsFirstOutOfRange self.now) }
    {
        let plan = *self;
        if plan.seats < 1 || 64 < plan.seats {
            return Err(OutOfRange::Seats { found: plan.seats });
        }
        if plan.share < 1 || 1 << 22 < plan.share {
            return Err(OutOfRange::Share { found: plan.share });
        }
        if 64 < plan.registers {
            return Err(OutOfRange::Registers {
                found: plan.registers,
            });
        }
        if 1 << 20 < plan.buckets {
            return Err(OutOfRange::Buckets {
                found: plan.buckets,
            });
        }
        if 1 << 32 < plan.changes {
            return Err(OutOfRange::Changes {
                found: plan.changes,
            });
        }
        if 1 << 20 < plan.removes {
            return Err(OutOfRange::Removes {
                found: plan.removes,
            });
        }
        Ok(())
    }
}
