use crate::lists::{RecList, ReplyList};
use seat_history::PairList;
use step_rules::Counts;

/// What comes of a script on the shared object.
#[derive(Debug, Drop)]
pub struct Driven {
    /// One for each line, in the script's order.
    pub replies: ReplyList,
    /// What each register has in the end, by rising number.
    pub registers: RecList,
    /// The pairs in the end, by rising key.
    pub pairs: PairList,
    /// The nodes in the end.
    pub counts: Counts,
}

/// What comes of a script on the object of one thread, which has no nodes.
#[derive(Debug, Drop)]
pub struct PlainRun {
    /// One for each line, in the script's order.
    pub replies: ReplyList,
    /// What each register has in the end, by rising number.
    pub registers: RecList,
    /// The pairs in the end, by rising key.
    pub pairs: PairList,
}
