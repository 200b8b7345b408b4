use crate::gate::Gate;
use std::sync::Wait;
use std::sync::atomic::{AtomicBool, Ordering};
use std::thread;

/// How often a worker looks for the other one before it gives up.
const PATIENCE: u32 = 10_000_000;

/// For tests: two workers meet here, one with the first node's turn at position 2 and one with the
/// second node's turn at position 1. Each waits until the other has come, and gives up after
/// 10,000,000 looks. No other turn waits.
#[derive(Drop)]
pub struct MeetGate {
    first: u32,
    second: u32,
    first_came: AtomicBool,
    second_came: AtomicBool,
    gave_up: AtomicBool,
}

impl MeetGate {
    /// A gate at which nobody has come yet.
    pub fn make(first: u32, second: u32) -> MeetGate {
        MeetGate {
            first,
            second,
            first_came: AtomicBool::new(false),
            second_came: AtomicBool::new(false),
            gave_up: AtomicBool::new(false),
        }
    }

    /// Whether both have come and neither had given up.
    pub fn met(&self) -> bool {
        let both = self.first_came.load(Ordering::SeqCst)
            && self.second_came.load(Ordering::SeqCst);
        both && !self.gave_up.load(Ordering::SeqCst)
    }

    fn meet(&self, mine: &AtomicBool, other: &AtomicBool) {
        mine.store(true, Ordering::SeqCst);
        for _ in 0..PATIENCE {
            if other.load(Ordering::SeqCst) {
                return;
            }
            thread::yield_now();
        }
        self.gave_up.store(true, Ordering::SeqCst);
    }
}

impl Gate for MeetGate {
    fn pass<R: Wait>(&self, _rt: &R, node: u32, position: u64) {
        if node == self.first && position == 2 {
            self.meet(&self.first_came, &self.second_came);
        }
        if node == self.second && position == 1 {
            self.meet(&self.second_came, &self.first_came);
        }
    }
}
