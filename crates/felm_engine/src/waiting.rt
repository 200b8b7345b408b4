ghost use Rattle.std.specs.Prelude.{◌≡◌, ◌<◌, ◌≤◌, ◌^◌, ℕ, [], length, drop, slice_get, Some, option_copied, IfOk, OnOk, OnErr, IsOk};
ghost use Rattle.felm_term.specs.Values.{value_of, IsPlain};
ghost use Rattle.felm_engine.specs.Queued.{queue_at, AreDistinct, SameQueues, ArePrepared, PutInto, PassedOn, TakenFrom, ReservedIn};

use crate::queue::Queue;
use felm_term::{Memory, Message, Value};
use std::alloc::Global;
use std::marker::Model;

/// A queue for each node, in which values wait only at asyncs.
#[derive(Debug, Drop)]
pub struct Waiting {
    queues: Vec<Queue>,
}

impl Model for Waiting {
    ghost use Rattle.std.specs.Prelude.{List};
    ghost use Rattle.felm_engine.specs.Queued.{QueueValue};

    ghost Value = { List QueueValue };

    ghost use Rattle.std.specs.Coded.{codes};
    ghost use Rattle.felm_term.specs.Codes.{coded_term};

    ghost coded = { Prim.hlevel (codes, coded_term) };

    ghost view = { λ a. a.queues.items };
}

impl Waiting {
    /// So many queues in which nothing waits.
    pub fn make(alloc: Global, count: usize) -> Result<Waiting, Memory>
        ensures length { IfOk result (λ waiting. length waiting ≡ count) }
        ensures empty { IfOk result (λ waiting. (k : ℕ) → (queue_at waiting k).items ≡ []) }
    {
        let mut queues = Vec::with_capacity(alloc, count).map_err(|_| Memory)?;
        for _made in 0..count {
            queues.push(Queue::make(alloc)?).map_err(|_| Memory)?;
        }
        Ok(Waiting { queues })
    }

    /// The value that has waited longest at a node.
    pub fn first(&self, node: u32) -> Option<&Value>
        requires { node < length self.now }
        ensures { option_copied result ≡ slice_get (queue_at self.now node).items 0 }
    {
        self.queues[node as usize].first()
    }

    /// Makes room for so many values more at a node.
    pub fn reserve(&mut self, node: u32, more: u64) -> Result<(), Memory>
        requires node { node < length self.old }
        requires few { more < 2 ^ 32 }
        ensures stays { ReservedIn node self.old self.new }
        ensures ok { OnOk result (more ≤ (queue_at self.new node).spare) }
    {
        self.queues[node as usize].reserve(more)
    }

    /// Prepares a value at each of these nodes, to be put next. It can't be refused where the value
    /// is no function.
    pub fn prepare(&mut self, nodes: &[u32], value: &Value) -> Result<(), Memory>
        requires within { (i a : ℕ) → slice_get nodes.now i ≡ Some a → a < length self.old }
        ensures stays { SameQueues self.old self.new }
        ensures ok { OnOk result (ArePrepared nodes.now value.now self.new) }
        ensures plain { IsPlain value.now → IsOk result }
    {
        for node in nodes {
            self.queues[*node as usize].prepare(value)?;
        }
        Ok(())
    }

    /// Puts the prepared value of each of these nodes at the end of its queue, where there is room
    /// for it.
    pub fn put(&mut self, nodes: &[u32])
        requires within { (i a : ℕ) → slice_get nodes.now i ≡ Some a → a < length self.old }
        requires distinct { AreDistinct nodes.now }
        requires room { (i a : ℕ) → slice_get nodes.now i ≡ Some a → 0 < (queue_at self.old a).spare }
        ensures { PutInto nodes.now self.old self.new }
    {
        for node in nodes {
            self.queues[*node as usize].put();
        }
    }

    /// Puts the value of a message that is a change at the end of the queue of each of these nodes,
    /// where there is room for it. It can't be refused where the value is no function; after `Memory`
    /// the queues have what they had.
    pub fn pass_on(&mut self, nodes: &[u32], message: &Message) -> Result<(), Memory>
        requires within { (i a : ℕ) → slice_get nodes.now i ≡ Some a → a < length self.old }
        requires distinct { AreDistinct nodes.now }
        requires room { (i a : ℕ) → slice_get nodes.now i ≡ Some a → 0 < (queue_at self.old a).spare }
        ensures ok { OnOk result (PassedOn nodes.now message.now self.old self.new) }
        ensures err { OnErr result (SameQueues self.old self.new) }
        ensures plain { IsPlain (value_of message.now) → IsOk result }
    {
        if let Message::Change(value) = message {
            self.prepare(nodes, value)?;
            self.put(nodes);
        }
        Ok(())
    }

    /// Takes the first value off the queue of a node. Its room stays.
    pub fn take_first(&mut self, node: u32)
        requires { node < length self.old }
        ensures { TakenFrom node self.old self.new }
    {
        self.queues[node as usize].take_first();
    }
}
