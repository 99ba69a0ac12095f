use seat_history::ValWords;
use thiserror::Error;

/// What an insert answers.
#[derive(Clone, Copy, Debug, Drop, PartialEq, Eq, Error)]
pub enum Insert {
    /// The pair is there now.
    #[error("inserted")]
    Done,
    /// The key is there already, with this value.
    #[error("the key is there already")]
    Present(ValWords),
    /// The key isn't there and stays so, since fewer nodes are free than are needed.
    #[error("full: {need} nodes are needed, and {free} are free")]
    Full { need: u32, free: u32 },
}

/// What a replace answers.
#[derive(Clone, Copy, Debug, Drop, PartialEq, Eq, Error)]
pub enum Replace {
    /// The value was the old one, and is the new one now.
    #[error("replaced")]
    Yes,
    /// The value isn't the old one, but this.
    #[error("the value is another one")]
    Found(ValWords),
    /// The key isn't there.
    #[error("the key is not there")]
    Absent,
    /// The value is the old one and stays so, since fewer nodes are free than are needed.
    #[error("full: {need} nodes are needed, and {free} are free")]
    Full { need: u32, free: u32 },
}

/// What a remove answers.
#[derive(Clone, Copy, Debug, Drop, PartialEq, Eq, Error)]
pub enum Remove {
    /// The pair is taken out; it had this value.
    #[error("removed")]
    Gone(ValWords),
    /// The key isn't there.
    #[error("the key is not there")]
    Absent,
    /// The key is there and stays so, since fewer nodes are free than are needed.
    #[error("full: {need} nodes are needed, and {free} are free")]
    Full { need: u32, free: u32 },
}

/// What an update answers.
#[derive(Clone, Copy, Debug, Drop, PartialEq, Eq, Error)]
pub enum Update {
    /// The key had this value, or None, and has the one now that is given for it.
    #[error("updated")]
    Done { there: Option<ValWords> },
    /// The value given for what is there isn't put, since fewer nodes are free than are needed.
    #[error("full: {need} nodes are needed, and {free} are free")]
    Full { need: u32, free: u32 },
}
