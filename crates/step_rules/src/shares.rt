ghost use Rattle.std.specs.Prelude.{◌≡◌, ◌≤◌, ◌<◌, ◌+◌, ◌*◌, [], true, IfOk, OnErr, length, vec_capacity};
ghost use Rattle.step_rules.specs.SeatData.{IsOf, IsSeat, is_quiet};
ghost use Rattle.step_rules.specs.Steps.{IsJoined, IsSplit};
ghost use Rattle.step_rules.specs.declared.layout.TheConstants.{CLAIMS};

use crate::layout::CLAIMS;
use crate::plays::{Halves, Joins};
use crate::seat::Seat;
use crate::settle::settle;
use crate::shared::Shared;
use std::alloc::Global;
use wire_ports::NoMemory;

impl Shared {
    /// Makes a seat with the greatest number that a fresh seat holds, with its share of nodes, changes
    /// and removes. Where memory runs out, everything stays as it was.
    pub fn split(&self, alloc: Global, seat: &mut Seat) -> Result<Seat, NoMemory>
        requires ours { IsOf self.now seat.old }
        requires fresh { seat.old.fresh ≡ true }
        requires more { 1 < length seat.old.view.numbers }
        ensures split { IfOk result (λ made. IsSplit seat.old seat.new made) }
        ensures law { IfOk result (λ made. IsSeat seat.new × IsSeat made) }
        ensures refused { OnErr result (seat.new ≡ seat.old) }
    {
        let room = self.plan.share as usize + self.plan.removes as usize;
        let free = Vec::with_capacity(alloc, room)?;
        let holding = Vec::with_capacity(alloc, room)?;
        let retired = Vec::with_capacity(alloc, room)?;
        let noted = Vec::with_capacity(alloc, room)?;
        let scan_found = Vec::with_capacity(alloc, self.cells_start)?;
        Ok(self.cut(seat, free, holding, retired, noted, scan_found))
    }

    // The lists have room for the share that goes to the new seat.
    fn cut(
        &self,
        seat: &mut Seat,
        mut free: Vec<u32>,
        holding: Vec<u32>,
        retired: Vec<u32>,
        noted: Vec<u32>,
        scan_found: Vec<u64>,
    ) -> Seat
        requires ours { IsOf self.now seat.old }
        requires fresh { seat.old.fresh ≡ true }
        requires more { 1 < length seat.old.view.numbers }
        requires empty { (free.items ≡ []) × (holding.items ≡ []) × (retired.items ≡ []) × (noted.items ≡ []) × (scan_found.items ≡ []) }
        requires room { (self.now.plan.share + self.now.plan.removes ≤ vec_capacity free) × (self.now.plan.share + self.now.plan.removes ≤ vec_capacity holding)
            × (self.now.plan.share + self.now.plan.removes ≤ vec_capacity retired) × (self.now.plan.share + self.now.plan.removes ≤ vec_capacity noted)
            × (CLAIMS * self.now.plan.seats ≤ vec_capacity scan_found) }
        ensures split { IsSplit seat.old seat.new result }
        ensures law { IsSeat seat.new × IsSeat result }
    {
        let mut inner = self.table.shared.split_seat::<Halves>(&mut seat.inner);
        settle(self, &mut seat.inner);
        settle(self, &mut inner);
        seat.numbers -= 1;
        seat.changes -= self.plan.changes;
        seat.removes -= self.plan.removes;
        let kept = seat.free.len() - self.plan.share as usize;
        let Ok(()) = free.extend_from_slice(&seat.free[kept..]) else {
            unreachable!()
        };
        seat.free.truncate(kept);
        Seat {
            inner,
            least: seat.least + seat.numbers,
            numbers: 1,
            first: false,
            fresh: true,
            holds_record: false,
            changes: self.plan.changes,
            removes: self.plan.removes,
            free,
            holding,
            retired,
            noted,
            claims: [0; CLAIMS as usize],
            scan_next: 0,
            scan_old: 0,
            scan_found,
        }
    }

    /// Takes a quiet seat into the first one: its numbers, nodes, changes and removes left, and its
    /// stands.
    pub fn join(&self, into: &mut Seat, from: Seat)
        requires ours { IsOf self.now into.old }
        requires theirs { IsOf self.now from }
        requires first { into.old.first ≡ true }
        requires quiet { (is_quiet into.old ≡ true) × (is_quiet from ≡ true) }
        ensures joined { IsJoined into.old from into.new }
        ensures law { IsSeat into.new }
    {
        let Seat {
            inner,
            numbers,
            changes,
            removes,
            mut free,
            mut retired,
            ..
        } = from;
        self.table.shared.join_seat::<Joins>(&mut into.inner, inner);
        settle(self, &mut into.inner);
        into.fresh = false;
        into.numbers += numbers;
        into.changes += changes;
        into.removes += removes;
        let Ok(()) = into.free.append(&mut free) else {
            unreachable!()
        };
        let Ok(()) = into.retired.append(&mut retired) else {
            unreachable!()
        };
    }
}
