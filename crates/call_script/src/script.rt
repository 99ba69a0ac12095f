use crate::lists::LineList;

/// How many registers the calls of a script may name.
pub const REGISTERS: u32 = 16;

/// How many calls a script may have.
pub const MOST_LINES: usize = 65_536;

/// Calls of several callers, in order.
#[derive(Debug, Drop)]
pub struct Script {
    pub callers: u32,
    pub lines: LineList,
}
