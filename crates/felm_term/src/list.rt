ghost use Rattle.std.specs.Prelude.{◌≡◌, ◌+◌, ◌<◌, ◌≤◌, [], ◌∷◌, ◌++◌, length, OnOk, OnErr, IsOk, slice_get, Some};

use crate::memory::Memory;
use std::alloc::Global;
use std::marker::Model;

/// A list, which contracts see with the number of items that it can still take without asking for
/// memory.
#[derive(Debug, Drop)]
pub struct Items<T> {
    items: Vec<T>,
}

impl<T> Model for Items<T> {
    ghost use Rattle.std.specs.Prelude.{vec_len, vec_capacity, ◌-◌};
    ghost use Rattle.felm_term.specs.Spared.{Spared};

    ghost Value = { Spared T };

    ghost view = { λ a. record { items = a.items.items; spare = vec_capacity a.items - vec_len a.items } };
}

impl<T> Items<T> {
    /// The empty list.
    pub fn make(alloc: Global) -> Self
        ensures { result.items ≡ [] }
    {
        Items {
            items: Vec::new(alloc),
        }
    }

    /// The number of items.
    pub fn len(&self) -> usize
        ensures { result ≡ length self.now.items }
    {
        self.items.len()
    }

    /// The item at a place, counted from 0.
    pub fn at(&self, place: usize) -> &T
        requires { place < length self.now.items }
        ensures { slice_get self.now.items place ≡ Some result.now }
    {
        &self.items[place]
    }

    /// All items in order.
    pub fn as_slice(&self) -> &[T]
        ensures { result.now ≡ self.now.items }
    {
        self.items.as_slice()
    }

    /// Makes room for more items. The list stays.
    pub fn reserve(&mut self, more: usize) -> Result<(), Memory>
        ensures items { self.new.items ≡ self.old.items }
        ensures spare { self.old.spare ≤ self.new.spare }
        ensures ok { OnOk result (more ≤ self.new.spare) }
    {
        self.items.reserve(more).map_err(|_| Memory)
    }
}

impl<T: Drop> Items<T> {
    /// Appends an item. It can't be refused where there is spare room.
    pub fn push(&mut self, item: T) -> Result<(), Memory>
        ensures ok { OnOk result (self.new.items ≡ self.old.items ++ item ∷ []) }
        ensures err { OnErr result (self.new.items ≡ self.old.items) }
        ensures room { 0 < self.old.spare → IsOk result }
        ensures spare { 0 < self.old.spare → self.new.spare + 1 ≡ self.old.spare }
    {
        if self.items.len() < self.items.capacity() {
            self.items.push_reserved(item);
            return Ok(());
        }
        match self.items.push(item) {
            Ok(()) => Ok(()),
            Err(_) => Err(Memory),
        }
    }
}
