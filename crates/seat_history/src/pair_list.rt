use crate::key::KeyWords;
use crate::words::ValWords;
use item_list::ItemList;

/// Pairs of a key and its value, in a row.
pub type PairList = ItemList<(KeyWords, ValWords)>;
