ghost use Rattle.std.specs.Prelude.{◌≡◌, ◌<◌, ◌≤◌, [], ◌∷◌, ◌++◌, length, Some, slice_get};

use arrayvec::ArrayVec;
use std::marker::Model;

/// The numbers of up to nine nodes, in the order of a node's ports. Contracts see a list.
#[derive(Debug, Drop)]
pub struct Arguments {
    items: ArrayVec<u32, 9>,
}

impl Model for Arguments {
    ghost use Rattle.std.specs.Prelude.{List, ℕ};

    ghost Value = { List ℕ };

    ghost view = { λ a. a.items.items };
}

impl Arguments {
    /// No arguments.
    pub fn make() -> Self
        ensures { result ≡ [] }
    {
        Arguments {
            items: ArrayVec::new(),
        }
    }

    /// How many there are.
    pub fn len(&self) -> usize
        ensures count { result ≡ length self.now }
        ensures most { result ≤ 9 }
    {
        self.items.as_slice().len()
    }

    /// The one at a place, counted from 0.
    pub fn at(&self, place: usize) -> &u32
        requires { place < length self.now }
        ensures { slice_get self.now place ≡ Some result.now }
    {
        &self.items.as_slice()[place]
    }

    /// All of them in order.
    pub fn as_slice(&self) -> &[u32]
        ensures { result.now ≡ self.now }
    {
        self.items.as_slice()
    }

    /// Appends one, where there are fewer than nine.
    pub fn push(&mut self, item: u32)
        requires { length self.old < 9 }
        ensures { self.new ≡ self.old ++ item ∷ [] }
    {
        self.items.push(item);
    }

    /// An equal list.
    pub fn copy(&self) -> Self
        ensures { result ≡ self.now }
    {
        let mut items = ArrayVec::new();
        let _ = items.try_extend_from_slice(self.items.as_slice());
        Arguments { items }
    }
}
