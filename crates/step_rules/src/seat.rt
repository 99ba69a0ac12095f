ghost use Rattle.std.specs.Prelude.{◌≡◌, ◌<◌, ◌+◌, ◌-◌, ◌++◌, ◌∷◌, [], true, false, length, slice_index, drop};
ghost use Rattle.step_rules.specs.Bags.{IsWithout};
ghost use Rattle.step_rules.specs.SeatData.{IsSeat, SeatData, Takes, holds_record, is_quiet};
ghost use Rattle.step_rules.specs.Steps.{IsUnannounced, unnoted};
ghost use Rattle.step_rules.specs.Views.{claim_of, claimed_pages, number};
ghost use Rattle.step_rules.specs.World.{has, nodes_of};
ghost use Rattle.step_rules.specs.declared.layout.TheConstants.{CLAIMS};

use crate::layout::{BACK, CLAIMS};
use crate::lists::{holds, take_out};
use crate::view::View;
use seat_history::Call;
use std::fmt;
use std::marker::Model;

/// A caller's place at a shared object: the numbers under which it calls, the nodes that are its own,
/// and what it has seen. Every call of a caller is made with its seat.
#[derive(Drop)]
pub struct Seat {
    pub(crate) inner: atomic_table::Seat<Call, View>,
    /// The least number.
    pub(crate) least: u32,
    /// How many numbers are held.
    pub(crate) numbers: u32,
    pub(crate) first: bool,
    pub(crate) fresh: bool,
    /// Whether a record is held.
    pub(crate) holds_record: bool,
    /// How many changes are left.
    pub(crate) changes: u64,
    /// How many removes are left.
    pub(crate) removes: u32,
    /// The own nodes that are free.
    pub(crate) free: Vec<u32>,
    /// The own nodes that are held.
    pub(crate) holding: Vec<u32>,
    pub(crate) retired: Vec<u32>,
    /// The links that the change in preparation leaves out, in the chain's order.
    pub(crate) noted: Vec<u32>,
    /// What stands in the claim words of the least number: Back, Walk, Own and Hold.
    pub(crate) claims: [u64; CLAIMS as usize],
    /// The next word of the scan in flight.
    pub(crate) scan_next: u32,
    /// How many nodes were retired when it began. They are the first ones of the list.
    pub(crate) scan_old: usize,
    /// The nodes that its words before name.
    pub(crate) scan_found: Vec<u64>,
}

impl Model for Seat {
    ghost use Rattle.std.specs.Prelude.{◌≡◌, vec_capacity};
    ghost use Rattle.step_rules.specs.SeatData.{IsScan, IsTied, SeatData};
    ghost use Rattle.step_rules.specs.Views.{number};

    ghost Value = { SeatData };

    ghost view = { λ s. record { object = s.inner.table_id; view = s.inner.me.0; free = s.free.items; holding = s.holding.items; noted = s.noted.items; first = s.first; fresh = s.fresh } };

    ghost invariant = { λ s. IsTied s.inner.me s.numbers s.first s.fresh s.holds_record s.free.items s.holding.items s.noted.items s.claims (vec_capacity s.free)
        (vec_capacity s.holding) (vec_capacity s.retired) (vec_capacity s.noted) × (s.least ≡ number s.inner.me.0) × (s.changes ≡ s.inner.me.0.changes) × (s.removes ≡ s.inner.me.0.removes)
        × (s.retired.items ≡ s.inner.me.0.retired) × IsScan s.inner.me.0 s.scan_next s.scan_old s.scan_found.items (vec_capacity s.scan_found) };
}

impl fmt::Debug for Seat {
    fn fmt<W: fmt::Write>(&self, f: &mut fmt::Formatter<W>) -> fmt::Result {
        f.debug_struct("Seat")
            .field("number", &self.least)
            .field("numbers", &self.numbers)
            .finish_non_exhaustive()
    }
}

impl Seat {
    /// What holds of every seat: it is lawful, and its own nodes are free or held.
    pub fn law(&self)
        ensures { IsSeat self.now }
    {
        let _least = self.least;
    }

    /// The least number held, under which the seat's calls stand.
    pub fn number(&self) -> u32
        ensures { result ≡ number self.now.view }
    {
        self.least
    }

    /// How many numbers are held.
    pub fn numbers(&self) -> u32
        ensures { result ≡ length self.now.view.numbers }
    {
        self.numbers
    }

    /// Whether it is the seat that `build` made.
    pub fn is_first(&self) -> bool
        ensures { result ≡ self.now.first }
    {
        self.first
    }

    /// Whether it made no step but splits.
    pub fn fresh(&self) -> bool
        ensures { result ≡ self.now.fresh }
    {
        self.fresh
    }

    /// Whether no record and no node is held, and the four claim words are 0.
    pub fn quiet(&self) -> bool
        ensures { result ≡ is_quiet self.now }
    {
        !self.holds_record && self.holding.is_empty() && self.claims.iter().all(|word| *word == 0)
    }

    /// Whether a record is held.
    pub fn holds_record(&self) -> bool
        ensures { result ≡ holds_record self.now.view }
    {
        self.holds_record
    }

    /// How many changes are left.
    pub fn changes_left(&self) -> u64
        ensures { result ≡ self.now.view.changes }
    {
        self.changes
    }

    /// How many removes are left.
    pub fn removes_left(&self) -> u32
        ensures { result ≡ self.now.view.removes }
    {
        self.removes
    }

    /// How many nodes are free.
    pub fn free(&self) -> u32
        ensures { result ≡ length self.now.free }
    {
        self.free.len() as u32
    }

    /// How many nodes are retired.
    pub fn retired(&self) -> u32
        ensures { result ≡ length self.now.view.retired }
    {
        self.retired.len() as u32
    }

    /// How many nodes are held.
    pub fn holding(&self) -> u32
        ensures count { result ≡ length self.now.holding }
        ensures law { IsSeat self.now }
    {
        self.holding.len() as u32
    }

    /// How many links are noted.
    pub fn links_noted(&self) -> u32
        ensures { result ≡ length self.now.noted }
    {
        self.noted.len() as u32
    }

    /// What stands in a claim word of its least number: 0, or a node's number and 1.
    pub fn claim_word(&self, claim: u32) -> u64
        requires { claim < CLAIMS }
        ensures word { result ≡ (claim_of claim self.now.view).word }
        ensures law { IsSeat self.now }
    {
        self.claims[claim as usize]
    }

    /// A free node.
    pub fn next_free(&self) -> u32
        requires { 0 < length self.now.free }
        ensures node { result ≡ slice_index self.now.free (length self.now.free - 1) }
        ensures law { IsSeat self.now }
    {
        self.free[self.free.len() - 1]
    }

    /// A held node.
    pub fn next_held(&self) -> u32
        requires { 0 < length self.now.holding }
        ensures { result ≡ slice_index self.now.holding (length self.now.holding - 1) }
    {
        self.holding[self.holding.len() - 1]
    }

    /// Notes that the change in preparation leaves a link out: one of the chain that the claim on Back
    /// stands on. The links are noted in the chain's order, each once, and fewer than nodes are held.
    /// No step is made. The next store to Back, or its clear, takes all notes back.
    pub fn note_link(&mut self, node: u32)
        requires link { has (nodes_of (drop 1 (claimed_pages self.old.view))) node ≡ true }
        requires once { has self.old.noted node ≡ false }
        requires held { length self.old.noted < length self.old.holding }
        ensures noted { self.new ≡ record self.old { noted = self.old.noted ++ node ∷ [] } }
        ensures law { IsSeat self.new }
    {
        self.noted.push_reserved(node);
    }

    /// A step at the claim word Back begins another change, or ends one: no link is noted.
    pub(crate) fn take_notes_back(&mut self, claim: u32)
        ensures noted { self.new ≡ unnoted claim self.old }
        ensures law { IsSeat self.new }
    {
        if claim == BACK {
            self.noted.clear();
        }
    }

    /// The held node is free again.
    pub fn unhold(&mut self, node: u32)
        requires held { has self.old.holding node ≡ true }
        requires unannounced { IsUnannounced node self.old.view }
        ensures free { self.new.free ≡ self.old.free ++ node ∷ [] }
        ensures holding { IsWithout node self.old.holding self.new.holding }
        ensures same { self.new ≡ record self.old { free = self.new.free; holding = self.new.holding } }
        ensures law { IsSeat self.new }
    {
        take_out(&mut self.holding, node);
        self.free.push_reserved(node);
    }

    /// The own node is held from now on.
    pub(crate) fn hold(&mut self, node: u32)
        requires own { has (nodes_of self.old.view.own) node ≡ true }
        requires used { self.old.fresh ≡ false }
        ensures held { Takes node self.old self.new }
        ensures law { IsSeat self.new }
    {
        if holds(&self.holding, node) {
            return;
        }
        take_out(&mut self.free, node);
        self.holding.push_reserved(node);
    }
}
