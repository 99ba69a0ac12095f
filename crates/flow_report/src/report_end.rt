ghost use Rattle.std.specs.Prelude.{◌≡◌};

use std::alloc::AllocError;

/// Why bytes were not read as a report.
#[derive(Clone, Copy, Debug, PartialEq, Eq)]
pub enum ReportEnd {
    /// The first line that isn't good, by its number from 1. Where all lines are good and none is
    /// the last line of a report, the number is one more than there are lines.
    BadLine { line: u64 },
    NoMemory,
}

impl From<AllocError> for ReportEnd {
    ghost use Rattle.flow_report.specs.declared.report_end.ReportEnd.TheVariants.{NoMemory};

    ghost from_gives = { λ _ e. e ≡ NoMemory };

    fn from(_: AllocError) -> Self {
        ReportEnd::NoMemory
    }
}
