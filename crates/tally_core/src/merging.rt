//! The replies of all callers in one row.
ghost use Rattle.std.specs.Prelude.{◌≡◌, IfOk, ℕ, length};
ghost use Rattle.tally_core.specs.Workers.{HasMerged, lines_by, replies_at};

use crate::worker::Caller;
use call_script::Line;
use seat_history::Reply;
use std::alloc::{AllocError, Global};

/// The callers' replies in the order of the lines.
pub(crate) fn merge_replies(
    alloc: Global,
    lines: &[Line],
    callers: &[Caller],
) -> Result<Vec<Reply>, AllocError>
    requires all { (x : ℕ) → length (lines_by x lines.now) ≡ length (replies_at callers.now x) }
    ensures merged { IfOk result (λ replies. HasMerged lines.now (replies_at callers.now) replies.items) }
{
    // How many replies of each caller are in the row.
    let mut next = vec![in alloc; 0usize; callers.len()]?;
    let mut replies = Vec::with_capacity(alloc, lines.len())?;
    for line in lines {
        let caller = line.caller as usize;
        let turn = next[caller];
        replies.push(callers[caller].told[turn])?;
        next[caller] = turn + 1;
    }
    Ok(replies)
}
