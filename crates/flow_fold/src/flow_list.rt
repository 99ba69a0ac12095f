ghost use Rattle.std.specs.BTreeMap.{get};
ghost use Rattle.std.specs.Prelude.{◌≡◌, IfOk};
ghost use Rattle.flow_fold.specs.declared.key.Key.{Key};
ghost use Rattle.flow_fold.specs.Flows.{HasRisingKeys, value_in};
ghost use Rattle.flow_fold.specs.Key.{key_cmp};

use crate::key::Key;
use crate::value::Value;
use item_list::ItemList;
use std::alloc::Global;
use std::collections::BTreeMap;
use wire_ports::NoMemory;

/// Flows in a row.
pub type FlowList = ItemList<(Key, Value)>;

/// The pairs of a map, by rising key.
pub fn flows_of(alloc: Global, flows: &BTreeMap<Key, Value>) -> Result<FlowList, NoMemory>
    ensures entries { IfOk result (λ list. list ≡ flows.now.entries) }
    ensures rising { IfOk result HasRisingKeys }
    ensures values { IfOk result (λ list. (key : Key) → value_in list key ≡ get key_cmp flows.now key) }
{
    let mut items = Vec::with_capacity(alloc, flows.len())?;
    for (key, value) in flows {
        items.push_reserved((*key, *value));
    }
    Ok(FlowList::of_vec(items))
}
