ghost use Rattle.std.specs.Prelude.{◌≡◌, ◌≤◌, [], vec_capacity, IfOk};

use crate::gate::Gate;
use felm_meaning::{Done, Turn, compute};
use felm_term::Memory;
use std::alloc::Global;
use std::sync::Wait;

/// A worker takes at most so many turns at once.
pub const MOST_IN_HAND: u32 = 8;

/// What a worker has in hand: turns that it took, and what it has computed of them.
#[derive(Drop)]
pub struct Hand {
    pub turns: Vec<Turn>,
    pub done: Vec<Done>,
}

impl Hand {
    /// An empty hand with room for all that it will ever hold.
    pub fn make(alloc: Global) -> Result<Hand, Memory> {
        let turns = room_for(alloc, MOST_IN_HAND)?;
        let done = room_for(alloc, MOST_IN_HAND)?;
        Ok(Hand { turns, done })
    }

    /// Computes the turns in hand. After a refusal those before it are done, and the others stay
    /// out.
    pub fn compute_all<G: Gate, R: Wait>(
        &mut self,
        rt: &R,
        alloc: Global,
        gate: &G,
    ) -> Result<(), Memory> {
        for _ in 0..MOST_IN_HAND {
            let Some(turn) = self.turns.pop() else {
                break;
            };
            gate.pass(rt, turn.node(), turn.position());
            let done = compute(alloc, turn)?;
            put(&mut self.done, done)?;
        }
        Ok(())
    }
}

/// An empty list with room for so many items.
pub fn room_for<T>(alloc: Global, most: u32) -> Result<Vec<T>, Memory>
    ensures empty { IfOk result (λ items. items.items ≡ []) }
    ensures room { IfOk result (λ items. most ≤ vec_capacity items) }
{
    match Vec::with_capacity(alloc, most as usize) {
        Ok(items) => Ok(items),
        Err(_) => Err(Memory),
    }
}

/// Appends an item.
pub fn put<T: Drop>(items: &mut Vec<T>, item: T) -> Result<(), Memory> {
    match items.push(item) {
        Ok(()) => Ok(()),
        Err(_) => Err(Memory),
    }
}
