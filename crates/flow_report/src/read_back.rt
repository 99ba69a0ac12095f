ghost use Rattle.std.specs.Prelude.{◌≡◌, ◌↔◌, ◌⊎◌, ℕ, [], ◌∷◌, ◌++◌, length, IsTrue, IfOk, MatchResult, List};
ghost use Rattle.flow_fold.specs.Flows.{Flows, HasRisingKeys};
ghost use Rattle.netflow_five.specs.declared.engine_line.EngineLine.{EngineLine};
ghost use Rattle.flow_report.specs.ReadBack.{IsReport, IsBadLine, HasJustFlowLines, IsNextFlow};
ghost use Rattle.flow_report.specs.Reading.{IsFrontOf};
ghost use Rattle.flow_report.specs.Sums.{packets_of, octets_of};
ghost use Rattle.flow_report.specs.Text.{flow_line};

use crate::engine_lines::read_engines;
use crate::fields::read_flow;
use crate::last::read_last;
use crate::report_end::ReportEnd;
use crate::sums::Sums;
use crate::totals::Totals;
use flow_fold::{FlowList, Key, Value};
use netflow_five::EngineList;
use std::alloc::{AllocError, Global};

/// The fewest bytes of a flow's line: two addresses of four digits and three dots, ten digits, eleven
/// spaces and the line feed.
const FLOW_LINE_LEAST: usize = 2 * (4 + 3) + 10 + 11 + 1;

/// The fewest bytes of an engine's line: four words, five digits, eight spaces and the line feed.
const ENGINE_LINE_LEAST: usize = (6 + 5 + 4 + 6) + 5 + 8 + 1;

/// What a report says.
#[derive(Debug, Drop)]
pub struct ReadBack {
    pub flows: FlowList,
    pub engines: EngineList,
    pub totals: Totals,
}

/// The flows, engines and totals of which these bytes are the report, in time and memory in
/// proportion to the bytes.
pub fn read_report(alloc: Global, bytes: &[u8]) -> Result<ReadBack, ReportEnd>
    ensures ok { IfOk result (λ back. IsReport bytes.now back.flows back.engines back.totals) }
    ensures bad_line { (line : ℕ) → result ≡ Err (ReportEnd.BadLine line) → IsBadLine bytes.now line }

    // But for want of memory, each report is read and each bad line found.
    ensures reads_each_report { (flows : Flows) (engines : List EngineLine) (totals : Totals) → IsReport bytes.now flows engines totals
        → MatchResult result (λ back. (back.flows ≡ flows) × (back.engines ≡ engines) × (back.totals ≡ totals)) (λ e. e ≡ ReportEnd.NoMemory) }
    ensures finds_each_bad_line { (line : ℕ) → IsBadLine bytes.now line
        → (result ≡ Err (ReportEnd.BadLine line)) ⊎ (result ≡ Err ReportEnd.NoMemory) }
{
    let mut flows = Vec::with_capacity(alloc, bytes.len() / FLOW_LINE_LEAST)?;
    let (sums, behind) = read_flows(bytes, &mut flows)?;
    let mut engines = Vec::with_capacity(alloc, behind.len() / ENGINE_LINE_LEAST)?;
    let last = read_engines(behind, &mut engines)?;
    let Some(totals) = read_last(alloc, last, sums)? else {
        let line = sums.flows as u64 + engines.len() as u64 + 1;
        return Err(ReportEnd::BadLine { line });
    };
    let flows = FlowList::of_vec(flows);
    let engines = EngineList::of_vec(engines);
    Ok(ReadBack {
        flows,
        engines,
        totals,
    })
}

/// Reads good lines of flows as long as they follow, and answers what the flows come to together
/// and what stands after their lines.
fn read_flows<'a>(
    bytes: &'a [u8],
    flows: &mut Vec<(Key, Value)>,
) -> Result<(Sums, &'a [u8]), AllocError>
    requires { flows.old.items ≡ [] }
    ensures lines { IfOk result (λ p. HasJustFlowLines bytes.now flows.new.items p.1.now) }
    ensures flows { IfOk result (λ p. p.0.flows ≡ length flows.new.items) }
    ensures packets { IfOk result (λ p. p.0.packets ≡ packets_of flows.new.items) }
    ensures octets { IfOk result (λ p. p.0.octets ≡ octets_of flows.new.items) }
{
    let mut sums = Sums::none();
    let mut rest = bytes;
    while let Some((flow, after)) = next_flow(rest, flows.as_slice()) {
        flows.push(flow)?;
        sums = sums.with(flow.1);
        rest = after;
    }
    Ok((sums, rest))
}

/// The flow whose line the text begins with, where its key is above those of the flows before.
fn next_flow<'a>(text: &'a [u8], before: &[(Key, Value)]) -> Option<((Key, Value), &'a [u8])>
    requires { HasRisingKeys before.now }
    ensures { IsFrontOf flow_line (IsNextFlow before.now) text.now result }
{
    let (flow, rest) = read_flow(text)?;
    if is_above(&flow, before) {
        Some((flow, rest))
    } else {
        None
    }
}

/// Whether the flow's key is above those of the flows before.
fn is_above(flow: &(Key, Value), before: &[(Key, Value)]) -> bool
    requires { HasRisingKeys before.now }
    ensures { IsTrue result ↔ HasRisingKeys (before.now ++ flow.now ∷ []) }
{
    match before.last() {
        Some(last) => last.0 < flow.0,
        None => true,
    }
}
