ghost use Rattle.std.specs.Prelude.{◌≡◌, ◌<◌, length, Some, slice_get, IsTrue};

use crate::node::Node;
use felm_term::{Inputs, Items};
use std::marker::Model;

/// The most nodes that a graph has.
pub const MOST_NODES: u32 = 16_384;

/// A signal graph, which contracts see as a `GraphValue`: first the declared inputs in order, then
/// nodes that read nodes before them.
#[derive(Debug, Drop)]
pub struct Graph {
    nodes: Items<Node>,
    inputs: Inputs,
    main: u32,
}

impl Model for Graph {
    ghost use Rattle.felm_graph.specs.GraphValue.{GraphValue};

    ghost Value = { GraphValue };

    ghost use Rattle.std.specs.Coded.{codes};
    ghost use Rattle.felm_term.specs.Codes.{coded_term, coded_type};

    ghost coded = { Prim.hlevel (codes, coded_term, coded_type) };

    ghost use Rattle.felm_graph.specs.Inside.{graph_of};
    ghost use Rattle.felm_graph.specs.Graphs.{IsGraph};

    ghost view = { graph_of };

    ghost invariant = { λ a. IsGraph (graph_of a) };
}

impl Graph {
    ghost use Rattle.felm_graph.specs.Graphs.{IsGraph};

    /// The graph of these nodes.
    pub fn make(nodes: Items<Node>, inputs: Inputs, main: u32) -> Graph
        requires { IsGraph (record { nodes = nodes.items; inputs = inputs.items; main = main }) }
        ensures { result ≡ record { nodes = nodes.items; inputs = inputs.items; main = main } }
    {
        Graph {
            nodes,
            inputs,
            main,
        }
    }

    /// All nodes in order.
    pub fn nodes(&self) -> &[Node]
        ensures nodes { result.now ≡ self.now.nodes }
        ensures graph { IsGraph self.now }
    {
        self.nodes.as_slice()
    }

    /// The declared inputs, whose nodes come first.
    pub fn inputs(&self) -> &Inputs
        ensures { result.now.items ≡ self.now.inputs }
    {
        &self.inputs
    }

    /// The number of the node that is shown.
    pub fn main(&self) -> u32
        ensures { result ≡ self.now.main }
    {
        self.main
    }
}
