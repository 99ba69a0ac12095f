ghost use Rattle.std.specs.Prelude.{◌≡◌, ◌<◌, All, IfOk, true, length};
ghost use Rattle.seat_history.specs.History.{state_at};
ghost use Rattle.seat_history.specs.Pairs.{ArePairsOf, IsPairInRange};
ghost use Rattle.step_rules.specs.Closing.{IsClosed, live_nodes};
ghost use Rattle.step_rules.specs.Layout.{nodes};
ghost use Rattle.step_rules.specs.SeatData.{IsOf, IsSeat, is_quiet};

use crate::counts::Counts;
use crate::last_chains::{Words, read_chain};
use crate::layout::{CELL_WIDTH, NODE_WIDTH};
use crate::plan::Plan;
use crate::seat::Seat;
use crate::shared::Shared;
use crate::view::View;
use atomic_table::Perch;
use seat_history::{Call, PairList, PairMap, Rec, WIDTH};
use std::alloc::Global;
use std::fmt;
use std::marker::Model;
use wire_ports::NoMemory;

/// An object that no thread shares any more: its registers and pairs, and how many nodes are left.
pub struct Closed {
    words: Words,
    plan: Plan,
    /// Where the cells and the nodes begin.
    cells_start: usize,
    nodes_start: usize,
    free: Vec<u32>,
    retired: Vec<u32>,
    /// What the seat saw last, for contracts alone. No seat rests here.
    last: Perch<Call, View>,
}

impl Model for Closed {
    ghost use Rattle.std.specs.Prelude.{◌≡◌, ◌≤◌, ◌+◌, length};
    ghost use Rattle.std.specs.Mem.Slots.{slots_items, slots_len, IsFull};
    ghost use Rattle.step_rules.specs.Closing.{ClosedData, EndsWith, live_nodes};
    ghost use Rattle.step_rules.specs.History.{IsHistory};
    ghost use Rattle.step_rules.specs.Layout.{IsPlan, cells_at, nodes, nodes_at};
    ghost use Rattle.step_rules.specs.declared.layout.TheConstants.{MOST_NODES};

    ghost Value = { ClosedData };

    ghost view = { λ c. record { plan = c.plan; history = c.last.view.seen; stands = c.last.view.stands; free = c.free.items; retired = c.retired.items } };

    ghost invariant = { λ c. IsFull c.words.words × (slots_len c.words.slots ≡ 0) × EndsWith c.plan (slots_items c.words.words) c.last.view.seen
        × (length c.free.items + live_nodes c.plan c.last.view.seen + length c.retired.items ≡ nodes c.plan) × (nodes c.plan ≤ MOST_NODES)
        × IsPlan c.plan × (c.cells_start ≡ cells_at c.plan) × (c.nodes_start ≡ nodes_at c.plan) × IsHistory c.plan c.last.view.seen };
}

impl fmt::Debug for Closed {
    fn fmt<W: fmt::Write>(&self, f: &mut fmt::Formatter<W>) -> fmt::Result {
        f.debug_struct("Closed")
            .field("plan", &self.plan)
            .finish_non_exhaustive()
    }
}

impl Closed {
    /// The plan that the object was built from.
    pub fn plan(&self) -> Plan
        ensures { result ≡ self.now.plan }
    {
        self.plan
    }

    /// The words of a register, after the whole history.
    pub fn register(&self, reg: u32) -> Rec
        requires { reg < self.now.plan.registers }
        ensures { result ≡ (state_at self.now.history (length self.now.history)).registers reg }
    {
        let backup = self
            .words
            .word(self.cells_start + CELL_WIDTH * reg as usize + 1);
        let first = self.nodes_start + NODE_WIDTH * (backup / 2) as usize;
        let mut rec = [0u64; WIDTH];
        for j in 0..WIDTH {
            rec[j] = self.words.word(first + j);
        }
        rec
    }

    /// The pairs after the whole history, by rising key.
    pub fn pairs(&self, alloc: Global) -> Result<PairList, NoMemory>
        ensures pairs { IfOk result (λ pairs. ArePairsOf (state_at self.now.history (length self.now.history)).values pairs) }
        ensures in_range { IfOk result (λ pairs. All IsPairInRange pairs) }
    {
        let nodes = self.nodes();
        let mut map = PairMap::new(alloc);
        for bucket in 0..self.plan.buckets {
            let cell = (self.plan.registers + bucket) as usize;
            let backup = self.words.word(self.cells_start + CELL_WIDTH * cell + 1);
            read_chain(&self.words, self.nodes_start, nodes, backup / 2, &mut map)?;
        }
        map.into_pairs(alloc)
    }

    // How many nodes there are.
    #[tactic(auto, unfolding(crate::specs::Layout::nodes))]
    fn nodes(&self) -> u32
        ensures { result ≡ nodes self.now.plan }
    {
        let plan = &self.plan;
        plan.seats * plan.share + plan.registers + plan.buckets
    }

    /// How many nodes are free, in use by the cells, and retired. A register uses one, and a bucket one
    /// for each of its records, and one where it has none.
    pub fn counts(&self) -> Counts
        ensures { result ≡ record { free = length self.now.free; live = live_nodes self.now.plan self.now.history; retired = length self.now.retired } }
    {
        let free = self.free.len() as u32;
        let retired = self.retired.len() as u32;
        Counts {
            free,
            live: self.nodes() - free - retired,
            retired,
        }
    }
}

impl Drop for Closed {
    fn drop(self) {
        let Closed {
            words,
            plan: _,
            cells_start: _,
            nodes_start: _,
            free: _free,
            retired: _retired,
            last: _last,
        } = self;
        words.free();
    }
}

impl Shared {
    /// Closes the object with the seat that holds all numbers. All calls stand in one line, and the
    /// registers are what the whole history leaves.
    pub fn close(self, seat: Seat) -> Closed
        requires ours { IsOf self seat }
        requires whole { length seat.view.numbers ≡ self.plan.seats }
        requires quiet { is_quiet seat ≡ true }
        ensures closed { IsClosed seat result }
        ensures law { IsSeat seat }
    {
        let Shared {
            table,
            plan,
            cells_start,
            nodes_start,
        } = self;
        let Seat {
            inner,
            free,
            retired,
            ..
        } = seat;
        let last = Perch::new(&inner, 0);
        let words = table.close_with(inner);
        Closed {
            words,
            plan,
            cells_start,
            nodes_start,
            free,
            retired,
            last,
        }
    }
}
