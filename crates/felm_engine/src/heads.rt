//! The first messages of a node's edges.
ghost use Rattle.std.specs.Prelude.{◌≡◌, ◌↔◌, ◌<◌, ◌≤◌, length, slice_get, Some, IsTrue, IfOk};
ghost use Rattle.felm_edges.specs.EdgesValue.{read_in, edge_in, IsFedIn};
ghost use Rattle.felm_engine.specs.Heads.{AreHeads};

use felm_edges::Edges;
use felm_meaning::{TurnInputs, equal_messages};
use felm_term::{Memory, Message};

/// Copies of the first messages of a node's edges, in the order of its ports.
pub fn heads(edges: &Edges, node: u32, ports: usize) -> Result<TurnInputs, Memory>
    requires ports { ports ≡ length (read_in edges.now node) }
    requires most { ports ≤ 9 }
    requires fed { IsFedIn edges.now node }
    ensures { IfOk result (AreHeads edges.now node) }
{
    let mut inputs = TurnInputs::make();
    for port in 0..ports {
        inputs.push(head(edges, node, port).copy()?);
    }
    Ok(inputs)
}

/// Whether these are the first messages of a node's edges.
pub fn are_heads(edges: &Edges, node: u32, ports: usize, inputs: &[Message]) -> bool
    requires ports { ports ≡ length (read_in edges.now node) }
    requires fed { IsFedIn edges.now node }
    ensures { IsTrue result ↔ AreHeads edges.now node inputs.now }
{
    if inputs.len() != ports {
        return false;
    }
    for port in 0..ports {
        if !equal_messages(&inputs[port], head(edges, node, port)) {
            return false;
        }
    }
    true
}

// The first message of an edge that has one.
fn head<'a>(edges: &'a Edges, node: u32, port: usize) -> &'a Message
    requires port { port < length (read_in edges.now node) }
    requires fed { IsFedIn edges.now node }
    ensures { slice_get (edge_in edges.now node port) 0 ≡ Some result.now }
{
    match edges.head(node, port) {
        Some(message) => message,
        None => unreachable!(),
    }
}
