ghost use Rattle.std.specs.Prelude.{◌≡◌, ◌++◌, All, IfOk, OnOk};
ghost use Rattle.std.specs.List.{flat_map};
ghost use Rattle.flow_fold.specs.Flows.{HasRisingKeys};
ghost use Rattle.flow_report.specs.EngineOrder.{HasRisingEngines};
ghost use Rattle.flow_report.specs.Ranges.{IsFlowInRange, IsEngineInRange};
ghost use Rattle.flow_report.specs.ReadBack.{IsReport};
ghost use Rattle.flow_report.specs.Text.{engine_text, flow_line, last_line_of, report_text};

use crate::line::{
    ENGINE_ROOM, KEY_ROOM, LAST_LINE_ROOM, add_engine, add_flow, add_last, value_len,
};
use crate::sums::sums_of;
use crate::totals::Totals;
use decimal_text::TextWriter;
use flow_fold::{Key, Value};
use netflow_five::EngineLine;
use std::alloc::{AllocError, Global};
use wire_ports::NoMemory;

/// The report: a line for each flow, a line for each engine, and a last line with the sums and
/// totals.
#[tactic(auto, unfolding(crate::specs::Text::report_text))]
pub fn report(
    alloc: Global,
    flows: &[(Key, Value)],
    engines: &[EngineLine],
    totals: &Totals,
) -> Result<Vec<u8>, NoMemory>
    requires rising { HasRisingKeys flows.now }
    requires engines { HasRisingEngines engines.now }
    ensures text { IfOk result (λ text. text.items ≡ report_text flows.now engines.now totals.now) }

    // So `read_report` reads it back.
    ensures report { IfOk result (λ text. IsReport text.items flows.now engines.now totals.now) }
{
    let mut text = TextWriter::with_capacity(alloc, room_for(flows, engines))?;
    add_flows(&mut text, flows)?;
    add_engines(&mut text, engines)?;
    add_last(&mut text, sums_of(flows), *totals)?;
    Ok(text.into_bytes())
}

/// The report's last line alone.
pub fn report_last_line(
    alloc: Global,
    flows: &[(Key, Value)],
    totals: &Totals,
) -> Result<Vec<u8>, NoMemory>
    ensures text { IfOk result (λ text. text.items ≡ last_line_of flows.now totals.now) }
{
    let mut text = TextWriter::with_capacity(alloc, LAST_LINE_ROOM)?;
    add_last(&mut text, sums_of(flows), *totals)?;
    Ok(text.into_bytes())
}

/// The bytes that the report has at most.
fn room_for(flows: &[(Key, Value)], engines: &[EngineLine]) -> usize {
    let mut room = LAST_LINE_ROOM.saturating_add(engines.len().saturating_mul(ENGINE_ROOM));
    for flow in flows {
        room = room.saturating_add(KEY_ROOM + value_len(flow.1));
    }
    room
}

/// A line for each flow.
fn add_flows(text: &mut TextWriter, flows: &[(Key, Value)]) -> Result<(), AllocError>
    ensures lines { OnOk result (text.new ≡ text.old ++ flat_map flow_line flows.now) }
    ensures in_range { OnOk result (All IsFlowInRange flows.now) }
{
    for flow in flows {
        add_flow(text, flow)?;
    }
    Ok(())
}

/// A line for each engine.
fn add_engines(text: &mut TextWriter, engines: &[EngineLine]) -> Result<(), AllocError>
    ensures lines { OnOk result (text.new ≡ text.old ++ flat_map engine_text engines.now) }
    ensures in_range { OnOk result (All IsEngineInRange engines.now) }
{
    for line in engines {
        add_engine(text, *line)?;
    }
    Ok(())
}
