//! Lists of nodes in which the order says nothing.
ghost use Rattle.std.specs.Prelude.{◌≡◌, true, vec_capacity, vec_len};
ghost use Rattle.step_rules.specs.Bags.{IsWithout};
ghost use Rattle.step_rules.specs.World.{has};

/// Whether the node stands in the list. It looks from the end, where the node that was added last
/// stands.
pub(crate) fn holds(list: &[u32], node: u32) -> bool
    ensures { result ≡ has list.now node }
{
    list.iter().rev().any(|held| *held == node)
}

/// Takes the node out, the last one first.
pub(crate) fn take_out(list: &mut Vec<u32>, node: u32)
    requires there { has list.old.items node ≡ true }
    ensures without { IsWithout node list.old.items list.new.items }
    ensures capacity { vec_capacity list.new ≡ vec_capacity list.old }
{
    let mut end = list.len();
    while list[end - 1] != node {
        end -= 1;
    }
    list.swap_remove(end - 1);
}
