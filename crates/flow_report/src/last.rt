// The last line, read.
ghost use Rattle.std.specs.Prelude.{IfOk};
ghost use Rattle.flow_report.specs.Ranges.{AreTotalsInRange};
ghost use Rattle.flow_report.specs.Reading.{IsFrontOf, EndsInTotals};
ghost use Rattle.flow_report.specs.Text.{sums_text, totals_text};

use crate::line::{LAST_LINE_ROOM, add_sums};
use crate::number::read_named;
use crate::sums::Sums;
use crate::totals::Totals;
use decimal_text::TextWriter;
use std::alloc::{AllocError, Global};

/// The totals, where the whole text is the last line under flow lines with these sums.
pub(crate) fn read_last(
    alloc: Global,
    text: &[u8],
    sums: Sums,
) -> Result<Option<Totals>, AllocError>
    ensures { IfOk result (EndsInTotals (sums_text sums.flows sums.packets sums.octets) text.now) }
{
    let mut front = TextWriter::with_capacity(alloc, LAST_LINE_ROOM)?;
    add_sums(&mut front, sums)?;
    Ok(totals_after(text, front.into_bytes().as_slice()))
}

/// The totals, where the whole text is `front` and their half of the last line.
fn totals_after(text: &[u8], front: &[u8]) -> Option<Totals>
    ensures { EndsInTotals front.now text.now result }
{
    let text = text.strip_prefix(front)?;
    let (totals, rest) = read_totals(text)?;
    if rest.is_empty() { Some(totals) } else { None }
}

fn read_totals(text: &[u8]) -> Option<(Totals, &[u8])>
    ensures { IsFrontOf totals_text AreTotalsInRange text.now result }
{
    let (records, text) = read_named(text, b"records", u64::MAX, b' ')?;
    let (datagrams, text) = read_named(text, b"datagrams", u64::MAX, b'\n')?;
    Some((Totals { records, datagrams }, text))
}
