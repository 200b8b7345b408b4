ghost use Rattle.std.specs.Prelude.{◌≡◌, ◌<◌, ◌^◌, ◌++◌, ℕ, Some, [], length, replicate, IfOk, OnOk};
ghost use Rattle.felm_meaning.specs.Nodes.{inner_of_kind};
ghost use Rattle.felm_plain.specs.Rows.{row_of};
ghost use Rattle.felm_plain.specs.Queues.{IsLeastQueue, TakesFirst, added, Added};

use crate::queue::Queue;
use felm_graph::{Graph, NodeKind};
use felm_term::{Event, Memory, Message};
use std::alloc::Global;
use std::marker::Model;

/// A queue for each node, in which values wait only at asyncs. Contracts see a list of lists.
#[derive(Debug, Drop)]
pub struct Queues {
    queues: Vec<Queue>,
}

impl Model for Queues {
    ghost use Rattle.std.specs.Prelude.{List};
    ghost use Rattle.felm_plain.specs.Left.{Left};

    ghost Value = { List Left };

    ghost use Rattle.std.specs.Coded.{codes};
    ghost use Rattle.felm_term.specs.Codes.{coded_term};

    ghost coded = { Prim.hlevel (codes, coded_term) };

    ghost view = { λ a. a.queues.items };
}

impl Queues {
    /// So many queues in which nothing waits.
    pub fn make(alloc: Global, count: usize) -> Result<Queues, Memory>
        ensures { IfOk result (λ queues. queues ≡ replicate count []) }
    {
        let mut queues = Vec::with_capacity(alloc, count).map_err(|_| Memory)?;
        for _made in 0..count {
            queues.push(Queue::new(alloc)).map_err(|_| Memory)?;
        }
        Ok(Queues { queues })
    }

    /// Takes the first value off the least queue in which one waits, as that node's event.
    pub fn take_first(&mut self) -> Option<Event>
        requires { length self.old < 2 ^ 32 }
        ensures { TakesFirst self.old self.new result }
    {
        let source = self.least()?;
        let value = self.queues[source as usize].pop()?;
        Some(Event { source, value })
    }

    /// The least node at which a value waits.
    pub fn least(&self) -> Option<u32>
        requires { length self.now < 2 ^ 32 }
        ensures { IsLeastQueue self.now result }
    {
        for node in 0..self.queues.len() {
            if !self.queues[node].is_empty() {
                return Some(node as u32);
            }
        }
        None
    }

    /// Puts the changes of all inner signals in this row at the ends of their asyncs' queues.
    pub fn add_changes(&mut self, graph: &Graph, row: &[Message]) -> Result<(), Memory>
        requires row { length row.now ≡ length graph.now.nodes }
        requires queues { length self.old ≡ length graph.now.nodes }
        ensures { OnOk result (Added graph.now.nodes (row_of row.now) self.old self.new) }
    {
        let nodes = graph.nodes();
        for node in 0..nodes.len() {
            add_change(&nodes[node].kind, row, &mut self.queues[node])?;
        }
        Ok(())
    }
}

// Puts the change of an async's inner signal at the end of the async's queue.
fn add_change(kind: &NodeKind, row: &[Message], queue: &mut Queue) -> Result<(), Memory>
    requires { (x : ℕ) → inner_of_kind kind.now ≡ Some x → x < length row.now }
    ensures { OnOk result (queue.new ≡ queue.old ++ added (inner_of_kind kind.now) (row_of row.now)) }
{
    if let NodeKind::Async { argument } = kind {
        if let Message::Change(value) = &row[*argument as usize] {
            queue.push(value.copy()?)?;
        }
    }
    Ok(())
}
