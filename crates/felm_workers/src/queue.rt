use felm_meaning::Turn;
use felm_term::Memory;
use std::collections::VecDeque;

/// Claimed turns, of which the first one that came is the first one that is taken. Workers are
/// generic in it, so that what they share crosses threads by a bound, as a bench does.
pub trait Queue {
    fn count(&self) -> usize;

    fn put(&mut self, turn: Turn) -> Result<(), Memory>;

    fn take(&mut self) -> Option<Turn>;
}

impl Queue for VecDeque<Turn> {
    fn count(&self) -> usize {
        self.len()
    }

    fn put(&mut self, turn: Turn) -> Result<(), Memory> {
        match self.push_back(turn) {
            Ok(()) => Ok(()),
            Err(_) => Err(Memory),
        }
    }

    fn take(&mut self) -> Option<Turn> {
        self.pop_front()
    }
}
