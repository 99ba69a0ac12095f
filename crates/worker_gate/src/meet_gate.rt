use crate::Gate;
use std::hint::spin_loop;
use std::sync::atomic::{AtomicBool, Ordering};

/// Workers 0 and 1 look for each other before their first turn. Neither waits without bound.
#[derive(Drop)]
pub struct MeetGate {
    /// How often a worker looks.
    most: u32,
    first: Side,
    second: Side,
}

/// Whether a worker came, and whether it saw the other.
#[derive(Drop)]
struct Side {
    came: AtomicBool,
    saw: AtomicBool,
}

impl Side {
    fn new() -> Side {
        Side {
            came: AtomicBool::new(false),
            saw: AtomicBool::new(false),
        }
    }

    // Comes, and looks for the other so many times.
    fn meet(&self, other: &Side, most: u32) {
        self.came.store(true, Ordering::SeqCst);
        for _ in 0..most {
            if other.came.load(Ordering::SeqCst) {
                self.saw.store(true, Ordering::SeqCst);
                return;
            }
            spin_loop();
        }
    }
}

impl MeetGate {
    /// A gate at which a worker looks for the other so many times, and then goes on.
    pub fn new(most: u32) -> MeetGate {
        MeetGate {
            most,
            first: Side::new(),
            second: Side::new(),
        }
    }

    /// Whether both workers saw the other.
    pub fn met(&self) -> bool {
        self.first.saw.load(Ordering::SeqCst) && self.second.saw.load(Ordering::SeqCst)
    }
}

impl Gate for MeetGate {
    fn pass(&self, worker: u32, turn: u32) {
        match (worker, turn) {
            (0, 0) => self.first.meet(&self.second, self.most),
            (1, 0) => self.second.meet(&self.first, self.most),
            _ => {}
        }
    }
}
