ghost use Rattle.std.specs.BTreeMap.{IsUnchanged, get};
ghost use Rattle.std.specs.List.Sorted.{IsPermutation};
ghost use Rattle.std.specs.Prelude.{[], ◌++◌, ◌∷◌, ◌≡◌, IfOk, List, None, OnErr, OnOk, Option};
ghost use Rattle.flow_fold.specs.declared.key.Key.{Key};
ghost use Rattle.flow_fold.specs.declared.value.Value.{Value};
ghost use Rattle.flow_fold.specs.Fold.{IsFold};
ghost use Rattle.flow_fold.specs.Key.{key_cmp};

use crate::key::Key;
use crate::value::{Value, merge};
use std::alloc::Global;
use std::collections::BTreeMap;
use wire_ports::NoMemory;

/// Adds a pair to a fold: merges the value into what the key has, or gives it to a new key. Fails
/// only where a new key finds no memory.
pub fn add(flows: &mut BTreeMap<Key, Value>, key: Key, value: Value) -> Result<(), NoMemory>
    // Of whatever pairs the map was the fold, it is now that of these and this one.
    ensures ok { OnOk result ((pairs : List (Key × Value)) → IsFold pairs (get key_cmp flows.old)
        → IsFold (pairs ++ (key, value) ∷ []) (get key_cmp flows.new)) }
    ensures err { OnErr result (IsUnchanged flows.old flows.new) }
    // Only a new key needs memory.
    ensures absent { OnErr result (get key_cmp flows.old key ≡ None) }
{
    if let Some(old) = flows.get_mut(&key) {
        *old = merge(*old, value);
    } else {
        flows.insert(key, value)?;
    }
    Ok(())
}

/// For each key that occurs, the sums modulo 2^64, the least `first`, the greatest `last` and all
/// flags of its pairs; no other key.
pub fn fold(alloc: Global, pairs: &[(Key, Value)]) -> Result<BTreeMap<Key, Value>, NoMemory>
    ensures folds { IfOk result (λ flows. IsFold pairs.now (get key_cmp flows)) }
    ensures any_order { IfOk result (λ flows. (others : List (Key × Value))
        → IsPermutation pairs.now others → IsFold others (get key_cmp flows)) }
    ensures one_fold { IfOk result (λ flows. (at : Key → Option Value)
        → IsFold pairs.now at → (key : Key) → at key ≡ get key_cmp flows key) }
{
    let mut flows = BTreeMap::new(alloc);
    for (key, value) in pairs {
        add(&mut flows, *key, *value)?;
    }
    Ok(flows)
}
