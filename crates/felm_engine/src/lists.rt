//! Lists of nodes that are made once from a graph.
ghost use Rattle.std.specs.Prelude.{◌≡◌, ◌<◌, ℕ, [], Some, length, slice_index_or, IfOk, OnOk};
ghost use Rattle.felm_meaning.specs.Nodes.{inner_of_kind};
ghost use Rattle.felm_engine.specs.Lists.{AreAsyncs, sources_of, items_in, with_async};

use felm_graph::{Graph, NodeKind, is_source};
use felm_term::{Items, Memory};
use std::alloc::Global;
use std::marker::Model;

/// For each node the asyncs that pass its changes on, in order. Contracts see a list of lists.
#[derive(Debug, Drop)]
pub struct Asyncs {
    lists: Vec<Items<u32>>,
}

impl Model for Asyncs {
    ghost use Rattle.std.specs.Prelude.{List, ℕ};
    ghost use Rattle.felm_engine.specs.Lists.{items_in};

    ghost Value = { List (List ℕ) };

    ghost view = { λ a. items_in a.lists.items };
}

impl Asyncs {
    /// The asyncs over each node of a graph.
    pub fn of(alloc: Global, graph: &Graph) -> Result<Asyncs, Memory>
        ensures { IfOk result (λ asyncs. AreAsyncs graph.now.nodes asyncs) }
    {
        let nodes = graph.nodes();
        let mut lists = Vec::with_capacity(alloc, nodes.len()).map_err(|_| Memory)?;
        for _made in 0..nodes.len() {
            lists.push(Items::make(alloc)).map_err(|_| Memory)?;
        }
        for node in 0..nodes.len() {
            add_async(&nodes[node].kind, node as u32, &mut lists)?;
        }
        Ok(Asyncs { lists })
    }

    /// The asyncs over a node.
    pub fn over(&self, node: u32) -> &[u32]
        requires { node < length self.now }
        ensures { result.now ≡ slice_index_or self.now node [] }
    {
        self.lists[node as usize].as_slice()
    }
}

// Puts a node at the end of the list of its inner signal, if it is an async.
fn add_async(kind: &NodeKind, node: u32, lists: &mut [Items<u32>]) -> Result<(), Memory>
    requires { (x : ℕ) → inner_of_kind kind.now ≡ Some x → x < length lists.old }
    ensures { OnOk result (items_in lists.new ≡ with_async (inner_of_kind kind.now) node (items_in lists.old)) }
{
    if let NodeKind::Async { argument } = kind {
        lists[*argument as usize].push(node)?;
    }
    Ok(())
}

/// The inputs and asyncs of a graph, in order.
pub fn sources(alloc: Global, graph: &Graph) -> Result<Items<u32>, Memory>
    ensures { IfOk result (λ sources. sources.items ≡ sources_of graph.now.nodes (length graph.now.nodes)) }
{
    let mut sources = Items::make(alloc);
    for node in 0..graph.nodes().len() {
        if is_source(graph, node as u32) {
            sources.push(node as u32)?;
        }
    }
    Ok(sources)
}
