ghost use Rattle.std.specs.Prelude.{◌≡◌, ◌<◌, ◌≤◌, [], ◌∷◌, ◌++◌, length, Some, slice_get};

use crate::arguments::Arguments;
use arrayvec::ArrayVec;
use felm_term::Message;
use std::marker::Model;

/// The messages of a node's arguments at one position, in the order of its ports: nine at most.
/// Contracts see a list.
#[derive(Debug, Drop)]
pub struct TurnInputs {
    items: ArrayVec<Message, 9>,
}

impl Model for TurnInputs {
    ghost use Rattle.std.specs.Prelude.{List};
    ghost use Rattle.felm_term.specs.declared.message.Message.{Message};

    ghost Value = { List Message };

    ghost use Rattle.std.specs.Coded.{codes};
    ghost use Rattle.felm_term.specs.Codes.{coded_term};

    ghost coded = { Prim.hlevel (codes, coded_term) };

    ghost view = { λ a. a.items.items };
}

impl TurnInputs {
    /// No messages.
    pub fn make() -> Self
        ensures { result ≡ [] }
    {
        TurnInputs {
            items: ArrayVec::new(),
        }
    }

    /// How many there are.
    pub fn len(&self) -> usize
        ensures count { result ≡ length self.now }
        ensures most { result ≤ 9 }
    {
        self.items.as_slice().len()
    }

    /// The one at a place, counted from 0.
    pub fn at(&self, place: usize) -> &Message
        requires { place < length self.now }
        ensures { slice_get self.now place ≡ Some result.now }
    {
        &self.items.as_slice()[place]
    }

    /// All of them in order.
    pub fn as_slice(&self) -> &[Message]
        ensures { result.now ≡ self.now }
    {
        self.items.as_slice()
    }

    /// Appends one, where there are fewer than nine.
    pub fn push(&mut self, item: Message)
        requires { length self.old < 9 }
        ensures { self.new ≡ self.old ++ item ∷ [] }
    {
        self.items.push(item);
    }
}

impl Arguments for TurnInputs {
    ghost messages = { λ inputs. inputs };

    fn count(&self) -> usize {
        self.len()
    }

    fn message(&self, port: usize) -> &Message {
        self.at(port)
    }
}
