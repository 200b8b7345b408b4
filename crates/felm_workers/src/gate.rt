use std::sync::Wait;

/// A worker passes here with each turn that it has claimed, before it computes the turn. It holds no
/// lock meanwhile, so it may wait here for other workers.
pub trait Gate {
    /// Passes with the turn of a node at a position.
    fn pass<R: Wait>(&self, rt: &R, node: u32, position: u64);
}

/// Waits for nobody.
#[derive(Clone, Copy, Debug)]
pub struct FreeGate;

impl Gate for FreeGate {
    fn pass<R: Wait>(&self, _rt: &R, _node: u32, _position: u64) {}
}
