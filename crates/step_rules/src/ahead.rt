//! Loads without a seat, that bring near what later steps will load. They are in no trail and change no
//! view, so they tell nothing: whatever they answer, no call rests on it.
ghost use Rattle.std.specs.Prelude.{◌<◌};
ghost use Rattle.step_rules.specs.Layout.{cells};

use crate::layout::NODE_WIDTH;
use crate::shared::Shared;

impl Shared {
    /// The number of a node that a cell's backup may name.
    pub fn peek_node(&self, cell: u32) -> u64
        requires cell { cell < cells self.now.plan }
    {
        self.table.shared.peek(self.backup_place(cell)) / 2
    }

    /// What the next word of a node may be: a link's number and 1, 0 or END. It is 0 where there is no
    /// such node.
    #[tactic(auto, unfolding(crate::specs::Layout::nodes))]
    pub fn peek_next(&self, node: u64) -> u64 {
        let cells = u64::from(self.plan.registers + self.plan.buckets);
        let nodes = u64::from(self.plan.seats) * u64::from(self.plan.share) + cells;
        if node >= nodes {
            return 0;
        }
        let place = self.node_place(node as u32, NODE_WIDTH as u32 - 1);
        self.table.shared.peek(place)
    }
}
