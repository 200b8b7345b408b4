ghost use Rattle.std.specs.Prelude.{◌≡◌, ◌↔◌, ◌^◌, ◌<◌, ◌≤◌, Some, length, IsTrue, IfOk, option_copied, slice_get};
ghost use Rattle.felm_edges.specs.Parts.{new_edge, with_message, without_first, HasPlace, HasMessage};

use circular_buffer::HeapCircularBuffer;
use felm_term::{Memory, Message};
use std::alloc::Global;
use std::marker::Model;

/// What one node has sent to a port of another, which hasn't taken it yet: a ring that is made
/// whole, so that no message asks for memory.
#[derive(Debug, Drop)]
pub struct Edge {
    source: u32,
    ring: HeapCircularBuffer<Message>,
}

impl Model for Edge {
    ghost use Rattle.felm_edges.specs.Parts.{EdgeValue};

    ghost Value = { EdgeValue };

    ghost use Rattle.std.specs.Coded.{codes};
    ghost use Rattle.felm_term.specs.Codes.{coded_term};

    ghost coded = { Prim.hlevel (codes, coded_term) };

    ghost view = { λ a. record { source = a.source; messages = a.ring.items; capacity = a.ring.capacity } };
}

impl Edge {
    /// An edge from a node that can hold so many messages, and holds none.
    pub fn make(alloc: Global, source: u32, capacity: u32) -> Result<Edge, Memory>
        ensures { IfOk result (λ edge. edge ≡ new_edge capacity source) }
    {
        let ring = HeapCircularBuffer::with_capacity(alloc, capacity as usize).map_err(|_| Memory)?;
        Ok(Edge { source, ring })
    }

    /// The node whose messages it takes.
    pub fn source(&self) -> u32
        ensures { result ≡ self.now.source }
    {
        self.source
    }

    /// The oldest message.
    pub fn first(&self) -> Option<&Message>
        ensures { option_copied result ≡ slice_get self.now.messages 0 }
    {
        self.ring.front()
    }

    /// Whether it has a message.
    pub fn has_message(&self) -> bool
        ensures { IsTrue result ↔ HasMessage self.now }
    {
        !self.ring.is_empty()
    }

    /// Whether it can take one message more.
    pub fn has_place(&self) -> bool
        ensures { IsTrue result ↔ HasPlace self.now }
    {
        self.ring.len() < self.ring.capacity()
    }

    /// Puts a message at the end.
    pub fn put(&mut self, message: Message)
        requires { HasPlace self.old }
        ensures { self.new ≡ with_message (Some message) self.old }
    {
        let _ = self.ring.try_push_back(message);
    }

    /// Takes the oldest message off, if there is one.
    pub fn drop_first(&mut self)
        ensures { self.new ≡ without_first self.old }
    {
        let _ = self.ring.pop_front();
    }
}
