use item_list::ItemList;

/// How many pairs a batch has; the last one may have fewer.
pub(crate) const BATCH: usize = 256;

/// A batch of a tally's pairs, and the number of the worker that drew it.
#[derive(Clone, Copy, Debug, Drop, PartialEq, Eq)]
pub struct Draw {
    pub worker: u32,
    pub batch: u32,
}

/// Draws in a row.
pub type DrawList = ItemList<Draw>;
