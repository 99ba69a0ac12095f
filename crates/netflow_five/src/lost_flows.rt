ghost use Rattle.std.specs.BTreeMap.{get};
ghost use Rattle.std.specs.Prelude.{◌≡◌, ◌++◌, ◌∷◌, ◌<◌, ◌≤◌, [], List, length, IfOk, OnOk};
ghost use Rattle.netflow_five.specs.Engines.{engine_cmp};
ghost use Rattle.netflow_five.specs.Losses.{IsLosses};
ghost use Rattle.netflow_five.specs.Tallies.{HasTallied};
ghost use Rattle.netflow_five.specs.declared.seq_mark.SeqMark.{SeqMark};

use crate::engine_line::EngineList;
use crate::seq_mark::SeqMark;
use crate::tally::{Tally, add_mark, first_tally, line_of};
use std::alloc::Global;
use std::collections::BTreeMap;
use wire_ports::NoMemory;

/// Adds a datagram to the tally of its engine.
fn add(tallies: &mut BTreeMap<(u8, u8), Tally>, mark: SeqMark) -> Result<(), NoMemory>
    requires few { (marks : List SeqMark) × HasTallied marks (get engine_cmp tallies.old) × (length marks < 4194304) }
    ensures { OnOk result ((marks : List SeqMark) → HasTallied marks (get engine_cmp tallies.old)
        → HasTallied (marks ++ mark ∷ []) (get engine_cmp tallies.new)) }
{
    let engine = (mark.engine_type, mark.engine_id);
    if let Some(tally) = tallies.get_mut(&engine) {
        *tally = add_mark(*tally, mark);
    } else {
        tallies.insert(engine, first_tally(mark))?;
    }
    Ok(())
}

/// The line of each engine that has a tally, by rising type and then id.
fn lines_of(alloc: Global, tallies: &BTreeMap<(u8, u8), Tally>) -> Result<EngineList, NoMemory>
    ensures { IfOk result (λ lines. (marks : List SeqMark) → HasTallied marks (get engine_cmp tallies.now) → IsLosses marks lines) }
{
    let mut lines = Vec::with_capacity(alloc, tallies.len())?;
    for (engine, tally) in tallies {
        lines.push_reserved(line_of(*engine, *tally));
    }
    Ok(EngineList::of_vec(lines))
}

/// For each engine that sent some of the datagrams, by rising type and then id, how many of its
/// flows came, how many were lost and how often its numbers went back.
///
/// The gap between two of its datagrams that follow one another is the second's sequence number less
/// the first's and less the first's flows, modulo 2^32. A gap below 2^31 is as many lost flows, and a
/// greater one is a reset. Nothing is known of what came before its first datagram.
pub fn losses(alloc: Global, marks: &[SeqMark]) -> Result<EngineList, NoMemory>
    requires few { length marks.now ≤ 4194304 }
    ensures losses { IfOk result (IsLosses marks.now) }
{
    let mut tallies = BTreeMap::new(alloc);
    for mark in marks {
        add(&mut tallies, *mark)?;
    }
    lines_of(alloc, &tallies)
}
