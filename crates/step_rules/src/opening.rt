ghost use Rattle.std.specs.Prelude.{◌≡◌, ◌+◌, ◌<◌, ◌≤◌, ◌*◌, ◌-◌, [], IfOk, OnErr, OnOk, length, true, vec_capacity};
ghost use Rattle.step_rules.specs.Layout.{IsPlan, cells, cells_at, nodes, words};
ghost use Rattle.step_rules.specs.SeatData.{IsSeat};
ghost use Rattle.step_rules.specs.Sound.{Sound};
ghost use Rattle.step_rules.specs.Starts.{Builds, IsBuilt, IsStart};
ghost use Rattle.step_rules.specs.Untouched.{first_next};
ghost use Rattle.step_rules.specs.Views.{count_up, starting};
ghost use Rattle.step_rules.specs.declared.layout.TheConstants.{CLAIMS, MOST_NODES};

use crate::layout::{CELL_WIDTH, CLAIMS, END, Layout, NODE_WIDTH};
use crate::plan::Plan;
use crate::rule::Law;
use crate::seat::Seat;
use crate::shared::Shared;
use crate::view::View;
use atomic_table::Table;
use seat_history::{Call, WIDTH};
use std::alloc::{AllocError, Global};
use thiserror::Error;

/// Why an object wasn't built.
#[derive(Clone, Copy, Debug, Drop, PartialEq, Eq, Error)]
pub enum Building {
    /// The plan has this many nodes.
    #[error("{nodes} nodes, and an object has at most 16777216")]
    TooLarge { nodes: u64 },
    #[error("out of memory")]
    NoMemory,
}

/// Builds the object of a plan. All registers are zeros, all buckets are empty, and the seat holds all
/// numbers and all free nodes. TooLarge comes exactly where the plan has more than 2^24 nodes.
pub fn build(alloc: Global, plan: &Plan) -> Result<(Shared, Seat), Building>
    requires plan { IsPlan plan.now }
    ensures built { Builds plan.now result }
    ensures law { IfOk result (λ made. IsSeat made.1) }
{
    let layout = match Layout::of(plan) {
        Ok(layout) => layout,
        Err(refused) => return Err(Building::TooLarge {
            nodes: refused.nodes,
        }),
    };
    match with_room(alloc, plan, &layout) {
        Ok(made) => Ok(made),
        Err(_) => Err(Building::NoMemory),
    }
}

// The words and the lists are reserved, filled and handed over.
fn with_room(alloc: Global, plan: &Plan, layout: &Layout) -> Result<(Shared, Seat), AllocError>
    requires plan { IsPlan plan.now }
    requires fits { nodes plan.now ≤ MOST_NODES }
    requires layout { layout.now ≡ record { cells = cells plan.now; nodes = nodes plan.now; words = words plan.now } }
    ensures built { IfOk result (λ made. IsBuilt plan.now made.0 made.1) }
    ensures law { IfOk result (λ made. IsSeat made.1) }
{
    let cells_start = CLAIMS as usize * plan.seats as usize;
    let (table, inner) = first_table(alloc, plan, layout, cells_start)?;
    let own = (layout.nodes - layout.cells) as usize;
    let room = own + plan.removes as usize * plan.seats as usize;
    let free = free_nodes(alloc, layout, room)?;
    let holding = Vec::with_capacity(alloc, room)?;
    let retired = Vec::with_capacity(alloc, room)?;
    let noted = Vec::with_capacity(alloc, room)?;
    let scan_found = Vec::with_capacity(alloc, cells_start)?;
    let shared = Shared {
        table,
        plan: *plan,
        cells_start,
        nodes_start: cells_start + CELL_WIDTH * layout.cells as usize,
    };
    let seat = first_seat(plan, inner, free, holding, retired, noted, scan_found);
    Ok((shared, seat))
}

// The table copies the words: no constructor of its crate takes a vector over. They go before the
// lists are reserved. The rule is met by no other words at the start (`laws::start_is_pinned`).
fn first_table(
    alloc: Global,
    plan: &Plan,
    layout: &Layout,
    cells_start: usize,
) -> Result<
    (
        Table<Call, View, Plan, Law, Global>,
        atomic_table::Seat<Call, View>,
    ),
    AllocError,
>
    requires plan { IsPlan plan.now }
    requires fits { nodes plan.now ≤ MOST_NODES }
    requires layout { layout.now ≡ record { cells = cells plan.now; nodes = nodes plan.now; words = words plan.now } }
    requires start { cells_start ≡ cells_at plan.now }
    ensures table { IfOk result (λ made. (made.0.shared.table_id.words ≡ words plan.now) × (made.0.shared.table_id.slots ≡ 0) × (made.0.shared.key ≡ plan.now)) }
    ensures seat { IfOk result (λ made. (made.1.table_id ≡ made.0.shared.table_id) × (made.1.me ≡ (starting plan.now, []))) }
    ensures sound { OnOk result (Sound (starting plan.now)) }
{
    let words = first_words(alloc, plan, layout, cells_start)?;
    Table::of_words(alloc, words.as_slice(), plan)
}

// The nodes that are no cell's.
fn free_nodes(alloc: Global, layout: &Layout, room: usize) -> Result<Vec<u32>, AllocError>
    requires sizes { layout.now.cells ≤ layout.now.nodes }
    requires room { layout.now.nodes - layout.now.cells ≤ room }
    ensures items { IfOk result (λ free. free.items ≡ count_up layout.now.cells (layout.now.nodes - layout.now.cells)) }
    ensures capacity { IfOk result (λ free. vec_capacity free ≡ room) }
{
    let mut free = Vec::with_capacity(alloc, room)?;
    for node in layout.cells..layout.nodes {
        free.push_reserved(node);
    }
    Ok(free)
}

// Zeros, but that each cell's backup names the node with the cell's number, and a bucket's next words
// say that it has no records.
fn first_words(
    alloc: Global,
    plan: &Plan,
    layout: &Layout,
    cells_start: usize,
) -> Result<Vec<u64>, AllocError>
    requires plan { IsPlan plan.now }
    requires fits { nodes plan.now ≤ MOST_NODES }
    requires layout { layout.now ≡ record { cells = cells plan.now; nodes = nodes plan.now; words = words plan.now } }
    requires start { cells_start ≡ cells_at plan.now }
    ensures start { IfOk result (λ ws. IsStart plan.now ws.items) }
{
    let nodes_start = cells_start + CELL_WIDTH * layout.cells as usize;
    let mut words = vec![in alloc; 0u64; layout.words as usize]?;
    for cell in 0..layout.cells {
        let first = cells_start + CELL_WIDTH * cell as usize;
        let next = first_next(plan, cell);
        words[first + 1] = 2 * u64::from(cell);
        words[first + 2 + WIDTH] = next;
        words[nodes_start + NODE_WIDTH * cell as usize + WIDTH] = next;
    }
    Ok(words)
}

// The next word of a cell's first node.
fn first_next(plan: &Plan, cell: u32) -> u64
    requires { cell < cells plan.now }
    ensures { result ≡ first_next plan.now cell }
{
    if cell < plan.registers { 0 } else { END }
}

fn first_seat(
    plan: &Plan,
    inner: atomic_table::Seat<Call, View>,
    free: Vec<u32>,
    holding: Vec<u32>,
    retired: Vec<u32>,
    noted: Vec<u32>,
    scan_found: Vec<u64>,
) -> Seat
    requires view { inner.me ≡ (starting plan.now, []) }
    requires sound { Sound (starting plan.now) }
    requires free { free.items ≡ count_up (cells plan.now) (plan.now.seats * plan.now.share) }
    requires none { (holding.items ≡ []) × (retired.items ≡ []) × (noted.items ≡ []) × (scan_found.items ≡ []) }
    requires room { (plan.now.seats * plan.now.share + plan.now.removes * plan.now.seats ≤ vec_capacity free)
        × (plan.now.seats * plan.now.share + plan.now.removes * plan.now.seats ≤ vec_capacity holding)
        × (plan.now.seats * plan.now.share + plan.now.removes * plan.now.seats ≤ vec_capacity retired)
        × (plan.now.seats * plan.now.share + plan.now.removes * plan.now.seats ≤ vec_capacity noted) × (CLAIMS * plan.now.seats ≤ vec_capacity scan_found) }
    ensures seat { result ≡ record { object = inner.table_id; view = starting plan.now; free = free.items; holding = []; noted = []; first = true; fresh = true } }
    ensures law { IsSeat result }
{
    Seat {
        inner,
        least: 0,
        numbers: plan.seats,
        first: true,
        fresh: true,
        holds_record: false,
        changes: plan.changes * u64::from(plan.seats),
        removes: plan.removes * plan.seats,
        free,
        holding,
        retired,
        noted,
        claims: [0; CLAIMS as usize],
        scan_next: 0,
        scan_old: 0,
        scan_found,
    }
}
