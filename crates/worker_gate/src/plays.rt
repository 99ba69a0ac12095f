//! What each kind of step on the cursor tells its caller.
ghost use Rattle.worker_gate.specs.Plays.{drew, looked, settled};
ghost use Rattle.worker_gate.specs.Views.{joined_view, left_view, right_view, spent_view};

use crate::view::BatchView;
use atomic_table::{Join, Play, Split};

pub(crate) struct Looks;

impl Play<u64, BatchView> for Looks {
    ghost then = { looked };
}

pub(crate) struct Draws;

impl Play<u64, BatchView> for Draws {
    ghost then = { drew };
}

pub(crate) struct Settles;

impl Play<u64, BatchView> for Settles {
    ghost then = { settled };
}

pub(crate) struct Halves;

impl Split<BatchView> for Halves {
    ghost left = { left_view };

    ghost right = { right_view };
}

pub(crate) struct Joins;

impl Join<BatchView> for Joins {
    ghost both = { joined_view };

    ghost spent = { spent_view };
}
