ghost use Rattle.std.specs.Prelude.{◌≤◌};

use crate::source::Source;

/// The most workers.
pub(crate) const MOST_WORKERS: u32 = 64;

/// The most flows, and the most buckets.
pub(crate) const MOST_FLOWS: u32 = 1 << 20;

/// What the words of a tally, or of a trial, ask for.
#[derive(Debug, Drop)]
pub struct TallyWords {
    pub workers: u32,
    /// The most flows that it may have.
    pub flows: u32,
    pub buckets: u32,
    /// Where its datagrams come from.
    pub source: Source,
    ghost some_workers: { 1 ≤ workers },
    ghost few_workers: { workers ≤ 64 },
    ghost some_flows: { 1 ≤ flows },
    ghost few_flows: { flows ≤ 1048576 },
    ghost some_buckets: { 1 ≤ buckets },
    ghost few_buckets: { buckets ≤ 1048576 },
}
