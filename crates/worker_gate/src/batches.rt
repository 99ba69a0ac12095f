//! Batches: numbers that workers draw from one cursor, each once.
ghost use Rattle.std.specs.Prelude.{◌≡◌, ◌<◌, ◌≤◌, [], false, true, IfOk, length};
ghost use Rattle.worker_gate.specs.Seats.{BatchesData, Draws, IsBatchOf, IsBatchSeat, IsLawful};
ghost use Rattle.worker_gate.specs.Views.{drawn_view, ended_view, joined_view, late_view, left_view, pending_view, right_view, starting};

use crate::batch_seat::BatchSeat;
use crate::plays;
use crate::rule::Law;
use crate::view::{BatchPlan, BatchView};
use atomic_table::Table;
use std::alloc::Global;
use std::marker::Model;
use wire_ports::NoMemory;

/// The batches with the numbers 0 up to a count, of which each is drawn at most once. They are shared
/// work, and no promise of which seat draws which.
#[derive(Drop)]
pub struct Batches {
    table: Table<u64, BatchView, BatchPlan, Law, Global>,
    plan: BatchPlan,
}

impl Model for Batches {
    ghost use Rattle.std.specs.Prelude.{◌≡◌};
    ghost use Rattle.worker_gate.specs.Seats.{BatchesData};

    ghost Value = { BatchesData };

    ghost view = { λ b. record { object = b.table.shared.table_id; plan = b.plan } };

    ghost invariant = { λ b. (b.plan ≡ b.table.shared.key) × (b.table.shared.table_id.words ≡ 1) };
}

impl Batches {
    /// So many batches, for so many seats, at most 2^23 and 1 to 64. The seat holds all numbers.
    pub fn new(alloc: Global, count: u32, seats: u32) -> Result<(Batches, BatchSeat), NoMemory>
        requires count { count ≤ 8388608 }
        requires seats { (0 < seats) × (seats ≤ 64) }
        ensures plan { IfOk result (λ made. made.0.plan ≡ record { count = count; seats = seats }) }
        ensures seat { IfOk result (λ made. made.1 ≡ record { object = made.0.object; view = starting made.0.plan }) }
        ensures law { IfOk result (λ made. IsBatchSeat made.1) }
    {
        let plan = BatchPlan { count, seats };
        let (table, inner) = Table::of_words(alloc, &[0], &plan)?;
        Ok((Batches { table, plan }, BatchSeat { inner }))
    }

    /// Makes a seat with the greatest number of a seat that has asked for no batch and joined nothing.
    pub fn split(&self, seat: &mut BatchSeat) -> BatchSeat
        requires ours { IsBatchOf self.now seat.old }
        requires fresh { seat.old.view.fresh ≡ true }
        requires more { 1 < length seat.old.view.numbers }
        ensures left { seat.new ≡ record seat.old { view = left_view seat.old.view } }
        ensures right { result ≡ record seat.old { view = right_view seat.old.view } }
        ensures law { IsBatchSeat seat.new × IsBatchSeat result }
    {
        let mut inner = self
            .table
            .shared
            .split_seat::<plays::Halves>(&mut seat.inner);
        self.settle(&mut seat.inner);
        self.settle(&mut inner);
        BatchSeat { inner }
    }

    /// Takes a seat into another one: its numbers, and behind the batches drawn there those that it
    /// drew. Once all numbers are joined and one seat was answered None, each batch was drawn once.
    pub fn join(&self, into: &mut BatchSeat, from: BatchSeat)
        requires ours { IsBatchOf self.now into.old }
        requires theirs { IsBatchOf self.now from }
        ensures joined { into.new ≡ record into.old { view = joined_view into.old.view from.view } }
        ensures law { IsBatchSeat into.new }
    {
        self.table
            .shared
            .join_seat::<plays::Joins>(&mut into.inner, from.inner);
        self.settle(&mut into.inner);
    }

    /// Draws a batch: its number, or None, exactly where the cursor was found at or past the count.
    pub fn next(&self, seat: &mut BatchSeat) -> Option<u32>
        requires ours { IsBatchOf self.now seat.old }
        ensures drawn { Draws seat.old seat.new result }
        ensures ours { IsBatchOf self.now seat.new }
        ensures numbers { seat.new.view.numbers ≡ seat.old.view.numbers }
        ensures law { IsBatchSeat seat.new }
    {
        let count = u64::from(self.plan.count);
        let seen = self.look(&mut seat.inner);
        if count <= seen {
            return None;
        }
        let found = self.draw(&mut seat.inner);
        if found < count {
            Some(found as u32)
        } else {
            None
        }
    }

    // A load of the cursor.
    fn look(&self, inner: &mut atomic_table::Seat<u64, BatchView>) -> u64
        requires ours { (inner.old.table_id ≡ self.now.object) × (inner.old.me.0.plan ≡ self.now.plan) }
        requires quiet { (inner.old.me.0.pending ≡ false) × (inner.old.me.1 ≡ []) }
        requires numbered { 0 < length inner.old.me.0.numbers }
        ensures same { (inner.new.table_id ≡ inner.old.table_id) × (inner.new.me.1 ≡ inner.old.me.1) }
        ensures less { result < self.now.plan.count → inner.new.me.0 ≡ pending_view result inner.old.me.0 }
        ensures more { self.now.plan.count ≤ result → inner.new.me.0 ≡ ended_view result inner.old.me.0 }
        ensures law { IsLawful inner.new.me.0 }
    {
        self.table.shared.load::<plays::Looks>(inner, 0)
    }

    // A fetch-and-add of 1 on the cursor.
    fn draw(&self, inner: &mut atomic_table::Seat<u64, BatchView>) -> u64
        requires ours { (inner.old.table_id ≡ self.now.object) × (inner.old.me.0.plan ≡ self.now.plan) }
        requires pending { (inner.old.me.0.pending ≡ true) × (inner.old.me.1 ≡ []) }
        requires numbered { 0 < length inner.old.me.0.numbers }
        ensures same { (inner.new.table_id ≡ inner.old.table_id) × (inner.new.me.1 ≡ inner.old.me.1) }
        ensures less { result < self.now.plan.count → inner.new.me.0 ≡ drawn_view result inner.old.me.0 }
        ensures more { self.now.plan.count ≤ result → inner.new.me.0 ≡ late_view result inner.old.me.0 }
        ensures law { IsLawful inner.new.me.0 }
    {
        self.table.shared.fetch_add::<plays::Draws>(inner, 0, 1)
    }

    // A load that changes nothing, after which the seat is known to be lawful.
    fn settle(&self, inner: &mut atomic_table::Seat<u64, BatchView>)
        requires ours { (inner.old.table_id ≡ self.now.object) × (inner.old.me.0.plan ≡ self.now.plan) }
        requires numbered { 0 < length inner.old.me.0.numbers }
        ensures same { (inner.new.table_id ≡ inner.old.table_id) × (inner.new.me ≡ inner.old.me) }
        ensures law { IsLawful inner.new.me.0 }
    {
        self.table.shared.load::<plays::Settles>(inner, 0);
    }
}
