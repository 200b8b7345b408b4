ghost use Rattle.std.specs.Prelude.{◌≡◌, ◌↔◌, ℕ, ◌<◌, ◌≤◌, Some, length, map, All, IsTrue, IfOk, option_copied, slice_get, slice_index_or, slice_set};
ghost use Rattle.felm_edges.specs.Parts.{new_edge, no_edge, with_message, without_first, HasPlace, HasMessage};

use crate::edge::Edge;
use felm_graph::Arguments;
use felm_term::{Memory, Message};
use std::alloc::Global;
use std::marker::Model;

/// The edges into one node, up to nine in the order of its ports. Contracts see the list.
#[derive(Debug, Drop)]
pub struct Ports {
    edges: Vec<Edge>,
}

impl Model for Ports {
    ghost use Rattle.std.specs.Prelude.{List};
    ghost use Rattle.felm_edges.specs.Parts.{EdgeValue};

    ghost Value = { List EdgeValue };

    ghost use Rattle.std.specs.Coded.{codes};
    ghost use Rattle.felm_term.specs.Codes.{coded_term};

    ghost coded = { Prim.hlevel (codes, coded_term) };

    ghost use Rattle.std.specs.Prelude.{length, ◌≤◌};

    ghost view = { λ a. a.edges.items };

    ghost invariant = { λ a. length a.edges.items ≤ 9 };
}

impl Ports {
    /// An edge from each of these nodes.
    pub fn make(alloc: Global, sources: &Arguments, capacity: u32) -> Result<Ports, Memory>
        ensures { IfOk result (λ ports. ports ≡ map (new_edge capacity) sources.now) }
    {
        let mut edges = Vec::with_capacity(alloc, sources.len()).map_err(|_| Memory)?;
        for source in sources.as_slice() {
            let edge = Edge::make(alloc, *source, capacity)?;
            edges.push(edge).map_err(|_| Memory)?;
        }
        Ok(Ports { edges })
    }

    /// All edges in order.
    pub fn as_slice(&self) -> &[Edge]
        ensures edges { result.now ≡ self.now }
        ensures few { length result.now ≤ 9 }
    {
        self.edges.as_slice()
    }

    /// The edge at a port.
    pub fn at(&self, port: usize) -> &Edge
        requires { port < length self.now }
        ensures { slice_get self.now port ≡ Some result.now }
    {
        &self.edges[port]
    }

    /// Whether each edge has a message.
    pub fn have_messages(&self) -> bool
        ensures { IsTrue result ↔ All HasMessage self.now }
    {
        self.edges.iter().all(|edge| edge.has_message())
    }

    /// Puts a message at the end of one edge.
    pub fn put(&mut self, port: usize, message: Message)
        requires there { port < length self.old }
        requires place { HasPlace (slice_index_or self.old port no_edge) }
        ensures { self.new ≡ slice_set self.old port (with_message (Some message) (slice_index_or self.old port no_edge)) }
    {
        self.edges[port].put(message);
    }

    /// Takes the oldest message off each edge.
    pub fn drop_firsts(&mut self)
        ensures { self.new ≡ map without_first self.old }
    {
        drop_firsts(&mut self.edges);
    }
}

fn drop_firsts(edges: &mut [Edge])
    ensures { edges.new ≡ map without_first edges.old }
{
    for edge in edges.iter_mut() {
        edge.drop_first();
    }
}
