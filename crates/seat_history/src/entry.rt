use crate::call::Call;

/// A call and who makes it.
#[derive(Clone, Copy, Debug, PartialEq, Eq)]
pub struct Entry {
    pub caller: u32,
    pub call: Call,
}
