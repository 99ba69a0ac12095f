use crate::view::BatchView;
use std::marker::Model;

/// A worker's place at the batches: what it draws with.
#[derive(Drop)]
pub struct BatchSeat {
    pub(crate) inner: atomic_table::Seat<u64, BatchView>,
}

impl Model for BatchSeat {
    ghost use Rattle.std.specs.Prelude.{◌≡◌, [], false};
    ghost use Rattle.worker_gate.specs.Seats.{BatchSeatData, IsLawful};

    ghost Value = { BatchSeatData };

    ghost view = { λ s. record { object = s.inner.table_id; view = s.inner.me.0 } };

    ghost invariant = { λ s. (s.inner.me.1 ≡ []) × (s.inner.me.0.pending ≡ false) × IsLawful s.inner.me.0 };
}
