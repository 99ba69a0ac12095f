use big_atomic::Seat;

/// A seat, and how many of its calls were made.
#[derive(Drop)]
pub struct Ran {
    pub seat: Seat,
    pub done: u64,
}
