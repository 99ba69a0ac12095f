use big_atomic::Seat;
use seat_history::Reply;
use worker_gate::BatchSeat;

/// What a worker's thread gives back: its seat, and what the worker tells.
#[derive(Drop)]
pub(crate) struct Worker<T> {
    pub(crate) seat: Seat,
    pub(crate) told: T,
}

/// A caller of a script tells the replies to its lines, in order.
pub(crate) type Caller = Worker<Vec<Reply>>;

/// A worker's part of a tally.
#[derive(Drop)]
pub(crate) struct Part {
    /// Its place at the batches.
    pub(crate) batches: BatchSeat,
    /// Those that it drew, in order.
    pub(crate) drawn: Vec<u32>,
    /// Whether a call of it was answered Full.
    pub(crate) full: bool,
}

/// A worker of a tally tells its part.
pub(crate) type Drawer = Worker<Part>;
