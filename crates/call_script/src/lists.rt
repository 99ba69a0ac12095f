use item_list::ItemList;
use seat_history::{Entry, Rec, Reply};

/// The lines of a script, in a row.
pub type LineList = ItemList<Entry>;

/// The words of registers, in a row.
pub type RecList = ItemList<Rec>;

/// Replies in a row.
pub type ReplyList = ItemList<Reply>;
