//! Messages that are followed over the edges of a small graph.
ghost use Rattle.std.specs.Prelude.{◌≡◌, ◌<◌, length, OnOk};
ghost use Rattle.felm_edges.specs.EdgesValue.{wiring_of};

use super::plans::{WIDE, plan};
use super::texts::add;
use Step::*;
use felm_edges::Edges;
use felm_graph::{Graph, NodeKind, arguments_of};
use felm_term::{Memory, Message, Value};
use std::alloc::Global;
use std::process::Abort;
use std::test::Fail;

/// What is done to edges. Nodes go by their numbers.
#[derive(Clone, Copy, Debug)]
enum Step {
    /// A node sends a change to this number.
    Change(u32, i64),
    /// A node sends this number again.
    Same(u32, i64),
    /// A node takes a message at each port.
    Take(u32),
}

/// Node 1 reads node 0 twice, and node 2 reads both.
const TWO_SUMS: &str =
    "main = let s = lift2 (\\p:int.\\q:int. p + q) x x in lift2 (\\p:int.\\q:int. p + q) s x";

#[test]
fn a_message_goes_to_each_port(rt: HostRuntime) -> Result<(), Fail> {
    let alloc = rt.alloc();
    let plan = plan(alloc, TWO_SUMS, "", &WIDE)?;
    let graph = &plan.graph;
    let mut edges = Edges::make(alloc, graph, 2)?;
    // Behind each step, for each node, the first messages at its ports, whether it may send, and whether each port has one.
    let rows = [
        (
            Change(0, 5),
            "[] room fed; [change 5, change 5] room fed; [none, change 5] room",
        ),
        (
            Same(0, 5),
            "[] fed; [change 5, change 5] room fed; [none, change 5] room",
        ),
        (
            Take(1),
            "[] fed; [same 5, same 5] room fed; [none, change 5] room",
        ),
        (
            Change(1, 10),
            "[] fed; [same 5, same 5] room fed; [change 10, change 5] room fed",
        ),
        (
            Take(2),
            "[] room fed; [same 5, same 5] room fed; [none, same 5] room",
        ),
        (
            Take(1),
            "[] room fed; [none, none] room; [none, same 5] room",
        ),
        // Nothing reads the last node, so there is always room.
        (
            Change(2, 15),
            "[] room fed; [none, none] room; [none, same 5] room",
        ),
        (
            Change(0, 6),
            "[] fed; [change 6, change 6] room fed; [none, same 5] room",
        ),
        (
            Change(1, 12),
            "[] fed; [change 6, change 6] room fed; [change 12, same 5] room fed",
        ),
        (
            Take(2),
            "[] room fed; [change 6, change 6] room fed; [none, change 6] room",
        ),
    ];
    for (step, expected) in rows {
        take_step(&rt, graph, &mut edges, step)?;
        let told = edges_text(alloc, graph, &edges)?;
        assert_eq!(&rt; told.as_str(), expected, "{step:?}");
    }
    Ok(())
}

#[test]
fn a_function_goes_to_each_port(rt: HostRuntime) -> Result<(), Fail> {
    let alloc = rt.alloc();
    let plan = plan(alloc, TWO_SUMS, "", &WIDE)?;
    let graph = &plan.graph;
    let mut edges = Edges::make(alloc, graph, 1)?;
    let message = Message::Change(function_in(graph)?.ok_or("no function")?);
    send(&rt, graph, &mut edges, 0, &message)?;
    let told = edges_text(alloc, graph, &edges)?;
    assert_eq!(&rt;
        told.as_str(),
        "[] fed; [change <fun>, change <fun>] room fed; [none, change <fun>] room"
    );
    Ok(())
}

/// The function of a node, which is as good as any.
fn function_in(graph: &Graph) -> Result<Option<Value>, Memory> {
    for node in graph.nodes() {
        if let NodeKind::Lift { function, .. } = &node.kind {
            return Ok(Some(function.copy()?));
        }
    }
    Ok(None)
}

fn take_step(rt: &impl Abort, graph: &Graph, edges: &mut Edges, step: Step) -> Result<(), Memory>
    requires { edges.old.wiring ≡ wiring_of graph.now.nodes }
    ensures { OnOk result (edges.new.wiring ≡ wiring_of graph.now.nodes) }
{
    match step {
        Change(node, number) => {
            let message = Message::Change(Value::Int(number));
            send(rt, graph, edges, node, &message)
        }
        Same(node, number) => {
            let message = Message::NoChange(Value::Int(number));
            send(rt, graph, edges, node, &message)
        }
        Take(node) => {
            take(rt, graph, edges, node);
            Ok(())
        }
    }
}

/// A node sends a message.
fn send(
    rt: &impl Abort,
    graph: &Graph,
    edges: &mut Edges,
    node: u32,
    message: &Message,
) -> Result<(), Memory>
    requires { edges.old.wiring ≡ wiring_of graph.now.nodes }
    ensures { OnOk result (edges.new.wiring ≡ wiring_of graph.now.nodes) }
{
    assert!(rt; (node as usize) < graph.nodes().len());
    edges.prepare(node, message)?;
    assert!(rt; edges.is_prepared(node));
    assert!(rt; edges.room(node));
    edges.put(node);
    assert!(rt; !edges.is_prepared(node));
    Ok(())
}

/// A node takes its arguments' messages.
fn take(rt: &impl Abort, graph: &Graph, edges: &mut Edges, node: u32)
    requires { edges.old.wiring ≡ wiring_of graph.now.nodes }
    ensures { edges.new.wiring ≡ wiring_of graph.now.nodes }
{
    assert!(rt; (node as usize) < graph.nodes().len());
    assert!(rt; edges.is_fed(node));
    edges.drop_heads(node);
}

fn edges_text(alloc: Global, graph: &Graph, edges: &Edges) -> Result<String, Fail>
    requires { edges.now.wiring ≡ wiring_of graph.now.nodes }
{
    let mut text = String::new(alloc);
    for node in 0..graph.nodes().len() {
        let item = node_text(alloc, graph, edges, node as u32)?;
        add(&mut text, "; ", item.as_str())?;
    }
    Ok(text)
}

fn node_text(alloc: Global, graph: &Graph, edges: &Edges, node: u32) -> Result<String, Fail>
    requires wiring { edges.now.wiring ≡ wiring_of graph.now.nodes }
    requires there { node < length graph.now.nodes }
{
    let heads = heads_text(alloc, graph, edges, node)?;
    let room = if edges.room(node) { " room" } else { "" };
    let fed = if edges.is_fed(node) { " fed" } else { "" };
    Ok(format!(in alloc; "[{heads}]{room}{fed}")?)
}

/// The first messages at a node's ports.
fn heads_text(alloc: Global, graph: &Graph, edges: &Edges, node: u32) -> Result<String, Fail>
    requires wiring { edges.now.wiring ≡ wiring_of graph.now.nodes }
    requires there { node < length graph.now.nodes }
{
    let mut text = String::new(alloc);
    for port in 0..arguments_of(graph, node).len() {
        let head = match edges.head(node, port) {
            Some(message) => format!(in alloc; "{message}")?,
            None => format!(in alloc; "none")?,
        };
        add(&mut text, ", ", head.as_str())?;
    }
    Ok(text)
}
