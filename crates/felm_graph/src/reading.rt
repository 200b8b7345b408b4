ghost use Rattle.std.specs.Prelude.{◌≡◌, ◌<◌, ◌≤◌, ℕ, length, false};
ghost use Rattle.felm_graph.specs.Nodes.{is_source_kind, is_async_kind, arguments_of_kind, is_source, arguments_of, async_number, AllBelow};

use crate::arguments::Arguments;
use crate::graph::Graph;
use crate::node::NodeKind;

/// How many asyncs have smaller numbers than an async. A node that is no async has no such number.
pub fn async_number(graph: &Graph, node: u32) -> Option<u32>
    requires { node < length graph.now.nodes }
    ensures { result ≡ async_number graph.now.nodes node }
{
    let nodes = graph.nodes();
    if !is_async_kind(&nodes[node as usize].kind) {
        return None;
    }
    let before = &nodes[..node as usize];
    let asyncs = before.iter().filter(|node| is_async_kind(&node.kind));
    Some(asyncs.count() as u32)
}

/// The nodes whose messages a node takes, in the order of its ports.
///
/// An async is a source: the signal whose changes it passes on isn't among its arguments.
pub fn arguments_of(graph: &Graph, node: u32) -> Arguments
    requires { node < length graph.now.nodes }
    ensures arguments { result ≡ arguments_of graph.now.nodes node }
    ensures earlier { AllBelow node result }
    ensures some { is_source graph.now.nodes node ≡ false → 1 ≤ length result }
{
    arguments_of_kind(&graph.nodes()[node as usize].kind)
}

fn arguments_of_kind(kind: &NodeKind) -> Arguments
    ensures { result ≡ arguments_of_kind kind.now }
{
    match kind {
        NodeKind::Lift { arguments, .. } => arguments.copy(),
        NodeKind::Foldp { argument, .. } => {
            let mut only = Arguments::make();
            only.push(*argument);
            only
        }
        NodeKind::Input { .. } => Arguments::make(),
        NodeKind::Async { .. } => Arguments::make(),
    }
}

/// Whether a node is an input or an async, and so takes no messages.
pub fn is_source(graph: &Graph, node: u32) -> bool
    requires { node < length graph.now.nodes }
    ensures { result ≡ is_source graph.now.nodes node }
{
    is_source_kind(&graph.nodes()[node as usize].kind)
}

fn is_source_kind(kind: &NodeKind) -> bool
    ensures { result ≡ is_source_kind kind.now }
{
    matches!(kind, NodeKind::Input { .. } | NodeKind::Async { .. })
}

fn is_async_kind(kind: &NodeKind) -> bool
    ensures { result ≡ is_async_kind kind.now }
{
    matches!(kind, NodeKind::Async { .. })
}
