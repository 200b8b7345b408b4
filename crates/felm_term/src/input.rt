ghost use Rattle.std.specs.Prelude.{◌≡◌, ◌+◌, ◌<◌, ◌≤◌, [], ◌∷◌, ◌++◌, false, bytes_eq, length, OnOk, OnErr, IsOk, slice_get, Some};
ghost use Rattle.std.specs.List.{IsDistinct, list_any};
ghost use Rattle.felm_term.specs.Inputs.{names_of};

use crate::list::Items;
use crate::memory::Memory;
use crate::name::Name;
use std::alloc::Global;
use std::marker::Model;

/// The type of an input's values.
#[derive(Clone, Copy, Debug, PartialEq, Eq)]
pub enum InputTy {
    /// Numbers of 64 bits.
    Int,
    /// The one value of type unit.
    Unit,
}

/// A declared input.
#[derive(Debug, Drop)]
pub struct InputDecl {
    /// What programs and scripts call it.
    pub name: Name,
    /// The type of its values.
    pub ty: InputTy,
    /// The value before the first event, unused for an input of type unit.
    pub default: i64,
}

/// Declared inputs in order, no two of which have one name.
#[derive(Debug, Drop)]
pub struct Inputs {
    items: Items<InputDecl>,
}

impl Model for Inputs {
    ghost use Rattle.std.specs.Prelude.{bytes_eq};
    ghost use Rattle.std.specs.List.{IsDistinct};
    ghost use Rattle.felm_term.specs.Inputs.{names_of};
    ghost use Rattle.felm_term.specs.Spared.{Spared};
    ghost use Rattle.felm_term.specs.declared.input.InputDecl.{InputDecl};

    ghost Value = { Spared InputDecl };

    ghost view = { λ a. a.items };

    ghost invariant = { λ a. IsDistinct bytes_eq (names_of a.items.items) };
}

impl Inputs {
    /// No inputs.
    pub fn make(alloc: Global) -> Self
        ensures { result.items ≡ [] }
    {
        Inputs {
            items: Items::make(alloc),
        }
    }

    /// The inputs of a list, no two of which have one name.
    pub fn of_items(items: Items<InputDecl>) -> Self
        requires { IsDistinct bytes_eq (names_of items.items) }
        ensures { result ≡ items }
    {
        Inputs { items }
    }

    /// The number of inputs.
    pub fn len(&self) -> usize
        ensures { result ≡ length self.now.items }
    {
        self.items.len()
    }

    /// The input at a place, counted from 0.
    pub fn at(&self, place: usize) -> &InputDecl
        requires { place < length self.now.items }
        ensures { slice_get self.now.items place ≡ Some result.now }
    {
        self.items.at(place)
    }

    /// All inputs in order, which have distinct names.
    pub fn as_slice(&self) -> &[InputDecl]
        ensures items { result.now ≡ self.now.items }
        ensures distinct { IsDistinct bytes_eq (names_of self.now.items) }
    {
        self.items.as_slice()
    }

    /// Makes room for more inputs. The list stays.
    pub fn reserve(&mut self, more: usize) -> Result<(), Memory>
        ensures items { self.new.items ≡ self.old.items }
        ensures spare { self.old.spare ≤ self.new.spare }
        ensures ok { OnOk result (more ≤ self.new.spare) }
    {
        self.items.reserve(more)
    }

    /// Appends an input whose name is new. It can't be refused where there is spare room.
    pub fn push(&mut self, item: InputDecl) -> Result<(), Memory>
        requires { list_any (bytes_eq item.name) (names_of self.old.items) ≡ false }
        ensures ok { OnOk result (self.new.items ≡ self.old.items ++ item ∷ []) }
        ensures err { OnErr result (self.new.items ≡ self.old.items) }
        ensures room { 0 < self.old.spare → IsOk result }
        ensures spare { 0 < self.old.spare → self.new.spare + 1 ≡ self.old.spare }
    {
        self.items.push(item)
    }
}
