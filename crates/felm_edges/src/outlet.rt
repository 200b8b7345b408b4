ghost use Rattle.std.specs.Prelude.{◌≡◌, ◌↔◌, ◌+◌, ◌<◌, ◌≤◌, Some, None, IfOk, OnOk, OnErr, IsOk, IsSome, IsTrue};
ghost use Rattle.felm_term.specs.Values.{value_of, IsPlain};

use felm_term::{Memory, Message};
use std::alloc::Global;
use std::marker::Model;

/// The message that the readers of one node will get next: the node's own, and a copy for each
/// reader, in a list whose room is made once.
#[derive(Debug, Drop)]
pub struct Outlet {
    message: Option<Message>,
    copies: Vec<Message>,
}

impl Model for Outlet {
    ghost use Rattle.felm_edges.specs.Parts.{OutletValue};

    ghost Value = { OutletValue };

    ghost use Rattle.std.specs.Coded.{codes};
    ghost use Rattle.felm_term.specs.Codes.{coded_term};

    ghost coded = { Prim.hlevel (codes, coded_term) };

    ghost use Rattle.felm_edges.specs.Copies.{outlet_of, AreCopies};

    ghost view = { outlet_of };

    ghost invariant = { AreCopies };
}

impl Outlet {
    /// An outlet with room for so many copies, at which nothing is prepared.
    pub fn make(alloc: Global, readers: usize) -> Result<Outlet, Memory>
        ensures { IfOk result (λ outlet. outlet ≡ record { message = None; left = 0; room = readers }) }
    {
        let copies = Vec::with_capacity(alloc, readers).map_err(|_| Memory)?;
        Ok(Outlet {
            message: None,
            copies,
        })
    }

    /// Whether a message is prepared.
    pub fn is_prepared(&self) -> bool
        ensures { IsTrue result ↔ IsSome self.now.message }
    {
        self.message.is_some()
    }

    /// Prepares a message with so many copies of it, in place of what was there. After `Memory`
    /// nothing is prepared.
    pub fn prepare(&mut self, readers: usize, message: &Message) -> Result<(), Memory>
        requires { readers ≤ self.old.room }
        ensures ok { OnOk result ((self.new.message ≡ Some message.now) × (self.new.left ≡ readers)) }
        ensures err { OnErr result (self.new.message ≡ None) }
        ensures plain { IsPlain (value_of message.now) → IsOk result }
        ensures room { self.new.room ≡ self.old.room }
    {
        self.clear();
        for _copied in 0..readers {
            self.copies.push_reserved(message.copy()?);
        }
        self.message = Some(message.copy()?);
        Ok(())
    }

    /// Takes a copy.
    pub fn take(&mut self) -> Message
        requires prepared { IsSome self.old.message }
        requires left { 0 < self.old.left }
        ensures value { self.old.message ≡ Some result }
        ensures same { self.new.message ≡ self.old.message }
        ensures left { self.new.left + 1 ≡ self.old.left }
        ensures room { self.new.room ≡ self.old.room }
    {
        match self.copies.pop() {
            Some(message) => message,
            None => unreachable!(),
        }
    }

    /// Nothing is prepared any more.
    pub fn clear(&mut self)
        ensures { self.new ≡ record { message = None; left = 0; room = self.old.room } }
    {
        self.message = None;
        self.copies.clear();
    }
}
