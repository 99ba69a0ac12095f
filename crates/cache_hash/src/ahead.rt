//! Bringing near what calls on a group of keys will load.
ghost use Rattle.std.specs.Prelude.{◌<◌};
ghost use Rattle.step_rules.specs.Layout.{IsPlan};

use crate::cells::bucket_cell;
use seat_history::KeyWords;
use step_rules::Shared;

/// How many keys are looked up together.
const GROUP: usize = 32;

/// Loads ahead what calls on these keys load first: the backup word of each bucket, a word of the node
/// that it names, and a word of the link after that. The loads of a group of 32 keys don't wait for
/// each other, where those of its calls do. Worth it where the table is larger than the processor's
/// caches. No seat takes part, and nothing is known by it: calls answer the same with it and without.
pub fn load_ahead(shared: &Shared, keys: &[KeyWords])
    requires plan { IsPlan shared.now.plan }
    requires some { 0 < shared.now.plan.buckets }
{
    for group in keys.chunks(GROUP) {
        load_group_ahead(shared, group);
    }
}

// The three rounds of one group.
fn load_group_ahead(shared: &Shared, keys: &[KeyWords])
    requires plan { IsPlan shared.now.plan }
    requires some { 0 < shared.now.plan.buckets }
{
    let mut nodes = [0u64; GROUP];
    for (node, key) in nodes.iter_mut().zip(keys) {
        *node = shared.peek_node(bucket_cell(shared, *key));
    }
    for node in nodes.iter_mut() {
        *node = shared.peek_next(*node).wrapping_sub(1);
    }
    for link in nodes.iter() {
        shared.peek_next(*link);
    }
}
