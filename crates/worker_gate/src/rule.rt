//! The rule of the batches' table.
use crate::view::{BatchPlan, BatchView};
use atomic_table::TableRule;

/// What holds of the cursor and of all views between any two steps.
pub struct Law;

impl TableRule<u64, BatchView, BatchPlan> for Law {
    ghost use Rattle.worker_gate.specs.Rule.{Holds};
    ghost use Rattle.worker_gate.specs.Views.{starting};

    ghost holds = { Holds };

    ghost first = { starting };
}
