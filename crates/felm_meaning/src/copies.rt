//! Copies of the parts of a plan.
ghost use Rattle.std.specs.Prelude.{◌≡◌, IfOk};

use felm_graph::{Graph, Node, NodeKind};
use felm_term::{Event, InputDecl, Inputs, Items, Memory, Name};
use std::alloc::Global;

/// An equal graph.
pub fn copy_graph(alloc: Global, graph: &Graph) -> Result<Graph, Memory>
    ensures { IfOk result (λ copy. copy ≡ graph.now) }
{
    let nodes = copy_nodes(alloc, graph.nodes())?;
    let inputs = copy_inputs(alloc, graph.inputs())?;
    Ok(Graph::make(nodes, inputs, graph.main()))
}

/// Equal events in the same order.
pub fn copy_events(alloc: Global, events: &[Event]) -> Result<Items<Event>, Memory>
    ensures { IfOk result (λ copy. copy.items ≡ events.now) }
{
    let mut copy = Items::make(alloc);
    for event in events {
        copy.push(event.copy()?)?;
    }
    Ok(copy)
}

fn copy_nodes(alloc: Global, nodes: &[Node]) -> Result<Items<Node>, Memory>
    ensures { IfOk result (λ copy. copy.items ≡ nodes.now) }
{
    let mut copy = Items::make(alloc);
    for node in nodes {
        copy.push(copy_node(alloc, node)?)?;
    }
    Ok(copy)
}

fn copy_node(alloc: Global, node: &Node) -> Result<Node, Memory>
    ensures { IfOk result (λ copy. copy ≡ node.now) }
{
    Ok(Node {
        kind: copy_kind(&node.kind)?,
        ty: node.ty.copy(alloc)?,
    })
}

fn copy_kind(kind: &NodeKind) -> Result<NodeKind, Memory>
    ensures { IfOk result (λ copy. copy ≡ kind.now) }
{
    match kind {
        NodeKind::Input { number } => Ok(NodeKind::Input { number: *number }),
        NodeKind::Lift {
            function,
            arguments,
        } => Ok(NodeKind::Lift {
            function: function.copy()?,
            arguments: arguments.copy(),
        }),
        NodeKind::Foldp {
            function,
            base,
            argument,
        } => Ok(NodeKind::Foldp {
            function: function.copy()?,
            base: base.copy()?,
            argument: *argument,
        }),
        NodeKind::Async { argument } => Ok(NodeKind::Async {
            argument: *argument,
        }),
    }
}

fn copy_inputs(alloc: Global, inputs: &Inputs) -> Result<Inputs, Memory>
    ensures { IfOk result (λ copy. copy.items ≡ inputs.now.items) }
{
    let declared = inputs.as_slice();
    Ok(Inputs::of_items(copy_declared(alloc, declared)?))
}

fn copy_declared(alloc: Global, inputs: &[InputDecl]) -> Result<Items<InputDecl>, Memory>
    ensures { IfOk result (λ copy. copy.items ≡ inputs.now) }
{
    let mut copy = Items::make(alloc);
    for declared in inputs {
        copy.push(InputDecl {
            name: Name::of(alloc, declared.name.as_str())?,
            ty: declared.ty,
            default: declared.default,
        })?;
    }
    Ok(copy)
}
