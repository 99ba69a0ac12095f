use crate::ItemList;
use std::test::Fail;

#[test]
fn a_list_has_the_items_of_its_vector(rt: HostRuntime) -> Result<(), Fail> {
    let words = Vec::from_slice(rt.alloc(), &[[1u64, 2], [3, 4]])?;
    let list = ItemList::of_vec(words);
    assert_eq!(rt; list.as_slice(), [[1, 2], [3, 4]].as_slice());
    assert_eq!(rt; list.len(), 2);
    assert!(rt; !list.is_empty());
    assert_eq!(rt; list.at(1), [3, 4]);
    Ok(())
}
