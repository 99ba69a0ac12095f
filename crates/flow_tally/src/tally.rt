ghost use Rattle.std.specs.Prelude.{◌≡◌, ◌≤◌, ◌^◌, List, ℕ, Some, length, IfOk, MatchResult};
ghost use Rattle.flow_fold.specs.Flows.{HasRisingKeys};
ghost use Rattle.flow_report.specs.Text.{report_text};
ghost use Rattle.flow_tally.specs.Input.{feed_shown, RefusesFiles};
ghost use Rattle.flow_tally.specs.OutShown.{out_shown};
ghost use Rattle.flow_tally.specs.Outcome.{LeavesFeed, Prints, Refuses, Says};
ghost use Rattle.flow_tally.specs.Reading.{HasRead, IsGatheredOf};
ghost use Rattle.flow_tally.specs.TallyOutcome.{GivesText, IsGenerated, IsTextOf, files_in, nodes_of};
ghost use Rattle.flow_tally.specs.Words.{OfTally, source_in, tally_in};
ghost use Rattle.netflow_five.specs.Losses.{IsLosses};
ghost use Rattle.netflow_five.specs.declared.engine_line.EngineLine.{EngineLine};

use crate::answer::{Answer, Ended};
use crate::gathered::Gathered;
use crate::generated::gather_generated;
use crate::input::read_files;
use crate::output::write_output;
use crate::source::Source;
use crate::status::Status;
use crate::tally_words::TallyWords;
use flow_fold::{Key, Value};
use flow_report::{Totals, report, report_last_line};
use netflow_five::{SeqMark, losses};
use std::alloc::Global;
use std::thread::Threads;
use tally_core::{Tallied, TallyEnd, tally as add_up};
use wire_ports::{Feed, NoMemory, Sink};
use worker_gate::Gate;

/// The most nodes of a table.
const MOST_NODES: u64 = 1 << 24;

/// How many nodes a table for the tally has.
fn nodes(words: &TallyWords) -> u64
    ensures { result ≡ nodes_of (tally_in words.now) }
{
    let workers = u64::from(words.workers);
    let share = 2 * u64::from(words.flows) + 4 * workers + 1;
    workers * share + u64::from(words.buckets)
}

/// The pairs of the files, or of the datagrams that are generated.
fn gather<F: Feed>(alloc: Global, feed: &mut F, source: &Source) -> Result<Gathered, Status>
    ensures read { MatchResult result (HasRead (feed_shown F.files F.faults F.failed F.current F.started F.left F.given feed.old feed.new) (source_in source.now))
        (RefusesFiles (files_in (source_in source.now)) (feed_shown F.files F.faults F.failed F.current F.started F.left F.given feed.old feed.new)) }
    ensures untouched { IsGenerated (source_in source.now) → feed.new ≡ feed.old }
    ensures files { F.files feed.new ≡ F.files feed.old }
    ensures later { F.faults feed.old ≤ F.faults feed.new }
{
    match source {
        Source::Files(names) => read_files(alloc, feed, names),
        Source::Generated(generator) => match gather_generated(alloc, generator) {
            Ok(gathered) => Ok(gathered),
            Err(_) => Err(Status::NoMemory),
        },
    }
}

/// The report of the flows and of the datagrams with these marks.
fn print_report(
    alloc: Global,
    marks: &[SeqMark],
    flows: &[(Key, Value)],
    totals: &Totals,
) -> Result<Vec<u8>, NoMemory>
    requires rising { HasRisingKeys flows.now }
    requires few { length marks.now ≤ 4194304 }
    ensures { IfOk result (λ text. (engines : List EngineLine) × IsLosses marks.now engines × (text.items ≡ report_text flows.now engines totals.now)) }
{
    let engines = losses(alloc, marks)?;
    report(alloc, flows, engines.as_slice(), totals)
}

/// The report, or its last line alone where the datagrams were generated.
fn print(
    alloc: Global,
    source: &Source,
    marks: &[SeqMark],
    flows: &[(Key, Value)],
    totals: &Totals,
) -> Result<Vec<u8>, NoMemory>
    requires rising { HasRisingKeys flows.now }
    requires few { length marks.now ≤ 4194304 }
    ensures { IfOk result (λ text. IsTextOf (source_in source.now) marks.now flows.now totals.now text.items) }
{
    match source {
        Source::Files(_) => print_report(alloc, marks, flows, totals),
        Source::Generated(_) => report_last_line(alloc, flows, totals),
    }
}

/// What is printed of the pairs that were gathered, once the workers added them up, where they have no
/// more flows than they may.
fn answer_of<R: Threads + Sync, G: Gate>(
    rt: &R,
    alloc: Global,
    words: &TallyWords,
    gathered: &Gathered,
    gate: &G,
) -> Result<Answer, Status>
    requires fits { nodes_of (tally_in words.now) ≤ 2 ^ 24 }
    requires past { (contents : List (List ℕ)) × (ds : List (List ℕ)) × IsGatheredOf contents ds gathered.now }
    ensures { (contents ds : List (List ℕ)) → IsGatheredOf contents ds gathered.now → GivesText (tally_in words.now) contents ds result }
{
    let Tallied { flows, closed, .. } = match add_up(
        rt,
        alloc,
        &gathered.pairs,
        words.workers,
        words.flows,
        words.buckets,
        gate,
    ) {
        Ok(tallied) => tallied,
        Err(TallyEnd::TooManyFlows) => {
            return Err(Status::TooManyFlows { limit: words.flows });
        }
        Err(TallyEnd::NoMemory) => return Err(Status::NoMemory),
    };
    let totals = Totals {
        records: gathered.pairs.len() as u64,
        datagrams: gathered.marks.len() as u64,
    };
    match print(
        alloc,
        &words.source,
        &gathered.marks,
        flows.as_slice(),
        &totals,
    ) {
        Ok(text) => Ok(Answer { text, closed }),
        Err(_) => Err(Status::NoMemory),
    }
}

/// What is printed of the tally.
fn tally_source<R: Threads + Sync, F: Feed, G: Gate>(
    rt: &R,
    alloc: Global,
    words: &TallyWords,
    feed: &mut F,
    gate: &G,
) -> Result<Answer, Status>
    ensures answer { MatchResult result
        (λ answer. Prints (Some (OfTally (tally_in words.now))) (feed_shown F.files F.faults F.failed F.current F.started F.left F.given feed.old feed.new) answer.closed answer.text.items)
        (Refuses (Some (OfTally (tally_in words.now))) (feed_shown F.files F.faults F.failed F.current F.started F.left F.given feed.old feed.new)) }
    ensures untouched { MatchResult result (λ _. IsGenerated (source_in words.now.source) → feed.new ≡ feed.old)
        (λ status. LeavesFeed (Some (OfTally (tally_in words.now))) status → feed.new ≡ feed.old) }
    ensures files { F.files feed.new ≡ F.files feed.old }
    ensures later { F.faults feed.old ≤ F.faults feed.new }
{
    let nodes = nodes(words);
    if nodes > MOST_NODES {
        return Err(Status::PlanTooLarge { nodes });
    }
    let gathered = gather(alloc, feed, &words.source)?;
    answer_of(rt, alloc, words, &gathered, gate)
}

/// Tallies the files, or what is generated, and writes what is printed of it once that is whole.
pub fn tally<R: Threads + Sync, F: Feed, O: Sink, G: Gate>(
    rt: &R,
    alloc: Global,
    words: &TallyWords,
    feed: &mut F,
    out: &mut O,
    gate: &G,
) -> Ended
    ensures says { Says (Some (OfTally (tally_in words.now)))
        (feed_shown F.files F.faults F.failed F.current F.started F.left F.given feed.old feed.new)
        (out_shown O.faults O.taken O.writes out.old out.new)
        result.closed result.status }
    ensures untouched { LeavesFeed (Some (OfTally (tally_in words.now))) result.status → feed.new ≡ feed.old }
    ensures files { F.files feed.new ≡ F.files feed.old }
    ensures later { F.faults feed.old ≤ F.faults feed.new }
    ensures out_later { O.faults out.old ≤ O.faults out.new }
{
    match tally_source(rt, alloc, words, feed, gate) {
        Ok(answer) => write_output(out, answer),
        Err(status) => Ended::refused(status),
    }
}
