//! Declared inputs by name.
ghost use Rattle.std.specs.Prelude.{◌≡◌, ◌<◌, ◌++◌, [], ◌∷◌, false, length, position, bytes_eq, slice_get, Some, OnOk, OnErr, IfOk, IfSome};
ghost use Rattle.std.specs.List.{IsDistinct, list_any};
ghost use Rattle.std.specs.Option.{option_map};
ghost use Rattle.felm_term.specs.Inputs.{names_of};
ghost use Rattle.felm_syntax.specs.InputMap.{declaration};

use felm_term::{InputDecl, InputTy, Inputs, Items, Memory, Name};
use indexmap::IndexMap;
use std::alloc::Global;
use std::marker::Model;

/// What a program declares of an input beside its name.
#[derive(Clone, Copy, Debug, PartialEq, Eq)]
pub struct Declared {
    /// The type of its values.
    pub ty: InputTy,
    /// The value before the first event, unused for an input of type unit.
    pub default: i64,
}

impl Declared {
    /// The declaration of an input of this name.
    fn with_name(self, name: Name) -> InputDecl
        ensures { result ≡ declaration name self }
    {
        InputDecl {
            name,
            ty: self.ty,
            default: self.default,
        }
    }
}

/// The inputs of a program by name, which contracts see as the list of declarations in order.
#[derive(Drop)]
pub struct InputMap {
    entries: IndexMap<String, Declared>,
}

impl Model for InputMap {
    ghost use Rattle.std.specs.Prelude.{List, bytes_eq};
    ghost use Rattle.std.specs.List.{IsDistinct};
    ghost use Rattle.felm_term.specs.Inputs.{names_of};
    ghost use Rattle.felm_term.specs.declared.input.InputDecl.{InputDecl};
    ghost use Rattle.felm_syntax.specs.InputMap.{declarations};

    ghost Value = { List InputDecl };

    ghost view = { λ a. declarations a.entries.entries };

    ghost invariant = { λ a. IsDistinct bytes_eq (names_of (declarations a.entries.entries)) };
}

impl InputMap {
    /// No inputs.
    pub fn make(alloc: Global) -> Self
        ensures { result ≡ [] }
    {
        InputMap {
            entries: IndexMap::new(alloc),
        }
    }

    /// The number of inputs.
    pub fn len(&self) -> usize
        ensures length { result ≡ length self.now }
        ensures distinct { IsDistinct bytes_eq (names_of self.now) }
    {
        self.entries.len()
    }

    /// The number of the input with this name, counted from 0.
    pub fn find(&self, name: &str) -> Option<usize>
        ensures found { result ≡ position (bytes_eq name.now) (names_of self.now) }
        ensures within { IfSome result (λ number. number < length self.now) }
    {
        self.entries.get_index_of(name)
    }

    /// The name and the declaration of an input, by its number.
    pub fn at(&self, number: usize) -> Option<(&str, Declared)>
        ensures { option_map (λ found. declaration found.0.now found.1) result
            ≡ slice_get self.now number }
    {
        let (name, declared) = self.entries.get_index(number)?;
        Some((name.as_str(), *declared))
    }

    /// Declares an input whose name is new, behind the others.
    pub fn declare(&mut self, alloc: Global, name: &str, declared: Declared) -> Result<(), Memory>
        requires { list_any (bytes_eq name.now) (names_of self.old) ≡ false }
        ensures ok { OnOk result (self.new ≡ self.old ++ declaration name.now declared ∷ []) }
        ensures err { OnErr result (self.new ≡ self.old) }
    {
        let Ok(name) = String::from_str(alloc, name) else {
            return Err(Memory);
        };
        let Ok(_) = self.entries.insert(name, declared) else {
            return Err(Memory);
        };
        Ok(())
    }

    /// A copy of the inputs as a list.
    pub fn to_inputs(&self, alloc: Global) -> Result<Inputs, Memory>
        ensures { IfOk result (λ inputs. inputs.items ≡ self.now) }
    {
        let mut inputs = Items::make(alloc);
        inputs.reserve(self.len())?;
        'inputs: while let Some((name, declared)) = self.at(inputs.len()) {
            let name = Name::of(alloc, name)?;
            inputs.push(declared.with_name(name))?;
        }
        Ok(Inputs::of_items(inputs))
    }
}
