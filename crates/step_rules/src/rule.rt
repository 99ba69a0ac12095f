//! The rule of the table.
use crate::plan::Plan;
use crate::view::View;
use atomic_table::TableRule;
use seat_history::Call;

/// What holds of the words and of all views between any two steps.
pub struct Law;

impl TableRule<Call, View, Plan> for Law {
    ghost use Rattle.step_rules.specs.Rule.{Holds};
    ghost use Rattle.step_rules.specs.Views.{starting};

    ghost holds = { Holds };

    ghost first = { starting };
}
