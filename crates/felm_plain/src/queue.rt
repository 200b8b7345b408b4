ghost use Rattle.std.specs.Prelude.{◌≡◌, ◌↔◌, [], ◌∷◌, ◌++◌, drop, slice_get, OnOk, IsTrue};

use felm_term::{Memory, Value};
use std::alloc::Global;
use std::collections::VecDeque;
use std::marker::Model;

/// The changes of an async's inner signal that have no event yet, the oldest first. Contracts see
/// the list.
#[derive(Debug, Drop)]
pub struct Queue {
    items: VecDeque<Value>,
}

impl Model for Queue {
    ghost use Rattle.felm_plain.specs.Left.{Left};

    ghost Value = { Left };

    ghost use Rattle.std.specs.Coded.{codes};
    ghost use Rattle.felm_term.specs.Codes.{coded_term};

    ghost coded = { Prim.hlevel (codes, coded_term) };

    ghost view = { λ a. a.items.items };
}

impl Queue {
    /// A queue in which nothing waits.
    pub fn new(alloc: Global) -> Queue
        ensures { result ≡ [] }
    {
        Queue {
            items: VecDeque::new(alloc),
        }
    }

    /// Whether nothing waits.
    pub fn is_empty(&self) -> bool
        ensures { IsTrue result ↔ (self.now ≡ []) }
    {
        self.items.is_empty()
    }

    /// Puts a value at the end.
    pub fn push(&mut self, value: Value) -> Result<(), Memory>
        ensures { OnOk result (self.new ≡ self.old ++ value ∷ []) }
    {
        self.items.push_back(value).map_err(|_| Memory)
    }

    /// Takes the first value off, if there is one.
    pub fn pop(&mut self) -> Option<Value>
        ensures value { result ≡ slice_get self.old 0 }
        ensures rest { self.new ≡ drop 1 self.old }
    {
        self.items.pop_front()
    }
}
