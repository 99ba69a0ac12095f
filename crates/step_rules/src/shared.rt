ghost use Rattle.std.specs.Prelude.{◌≡◌, ◌<◌};
ghost use Rattle.step_rules.specs.Layout.{cells, backup_at, claim_at, node_at, nodes, words, inline_at, version_at};
ghost use Rattle.step_rules.specs.declared.layout.TheConstants.{CLAIMS, NODE_WIDTH};

use crate::layout::{CELL_WIDTH, CLAIMS, NODE_WIDTH};
use crate::plan::Plan;
use crate::rule::Law;
use crate::view::View;
use seat_history::Call;
use std::alloc::Global;
use std::fmt;
use std::marker::Model;

/// A shared object: words that many seats use at once, under one rule.
#[derive(Drop)]
pub struct Shared {
    pub(crate) table: atomic_table::Table<Call, View, Plan, Law, Global>,
    pub(crate) plan: Plan,
    /// Where the cells and the nodes begin.
    pub(crate) cells_start: usize,
    pub(crate) nodes_start: usize,
}

impl Model for Shared {
    ghost use Rattle.std.specs.Prelude.{◌≡◌, ◌≤◌};
    ghost use Rattle.step_rules.specs.Layout.{IsPlan, cells_at, nodes, nodes_at, words};
    ghost use Rattle.step_rules.specs.SeatData.{ObjectData};
    ghost use Rattle.step_rules.specs.declared.layout.TheConstants.{MOST_NODES};

    ghost Value = { ObjectData };

    ghost view = { λ s. record { object = s.table.shared.table_id; plan = s.plan } };

    ghost invariant = { λ s. IsPlan s.plan × (nodes s.plan ≤ MOST_NODES) × (s.plan ≡ s.table.shared.key) × (s.table.shared.table_id.words ≡ words s.plan)
        × (s.cells_start ≡ cells_at s.plan) × (s.nodes_start ≡ nodes_at s.plan) × (s.table.shared.table_id.slots ≡ 0) };
}

impl fmt::Debug for Shared {
    fn fmt<W: fmt::Write>(&self, f: &mut fmt::Formatter<W>) -> fmt::Result {
        f.debug_struct("Shared")
            .field("plan", &self.plan)
            .finish_non_exhaustive()
    }
}

impl Shared {
    /// The plan that the object was built from.
    pub fn plan(&self) -> Plan
        ensures { result ≡ self.now.plan }
    {
        self.plan
    }

    // The place of the word j of a node.
    pub(crate) fn node_place(&self, node: u32, j: u32) -> usize
        requires { (node < nodes self.now.plan) × (j < NODE_WIDTH) }
        ensures { (result ≡ node_at self.now.plan node j) × (result < words self.now.plan) }
    {
        self.nodes_start + NODE_WIDTH * node as usize + j as usize
    }

    // The place of a claim word of a number.
    pub(crate) fn claim_place(&self, number: u32, claim: u32) -> usize
        requires { (number < self.now.plan.seats) × (claim < CLAIMS) }
        ensures { (result ≡ claim_at number claim) × (result < words self.now.plan) }
    {
        CLAIMS as usize * number as usize + claim as usize
    }

    // The place of a register's backup.
    pub(crate) fn backup_place(&self, cell: u32) -> usize
        requires { cell < cells self.now.plan }
        ensures { (result ≡ backup_at self.now.plan cell) × (result < words self.now.plan) }
    {
        self.cells_start + CELL_WIDTH * cell as usize + 1
    }

    // The place of a cell's version.
    pub(crate) fn version_place(&self, cell: u32) -> usize
        requires { cell < cells self.now.plan }
        ensures { (result ≡ version_at self.now.plan cell) × (result < words self.now.plan) }
    {
        self.cells_start + CELL_WIDTH * cell as usize
    }

    // The place of an inline word of a cell.
    pub(crate) fn inline_place(&self, cell: u32, j: u32) -> usize
        requires { (cell < cells self.now.plan) × (j < NODE_WIDTH) }
        ensures { (result ≡ inline_at self.now.plan cell j) × (result < words self.now.plan) }
    {
        self.cells_start + CELL_WIDTH * cell as usize + 2 + j as usize
    }
}
