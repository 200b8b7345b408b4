ghost use Rattle.std.specs.Prelude.{◌≡◌, ◌≤◌, ◌+◌, List, length, OnOk, IfOk};
ghost use Rattle.felm_graph.specs.declared.node.Node.{Node as NodeValue};
ghost use Rattle.felm_graph.specs.Layout.{value_in, with_node, lay};
ghost use Rattle.felm_graph.specs.Layable.{IsConstant, IsLayable, AreReady};
ghost use Rattle.felm_graph.specs.Frames.{part, replay, weight, work, ascent_of, Leads, IsLaid};
ghost use Rattle.felm_graph.specs.Graphs.{most_nodes};

use crate::arguments::Arguments;
use crate::frame::{Frame, innermost, put};
use crate::graph::MOST_NODES;
use crate::node::Node;
use crate::typed::{async_node, foldp_node, lift_node};
use felm_term::{Function, Items, Memory, Term, TermForm, TermsForm, Value};
use std::alloc::Global;

/// What is above a term that is laid out.
#[derive(Clone, Copy)]
pub enum Ascent {
    /// The next term that is laid out, by its root.
    Up(u32),
    /// Nothing.
    Done,
    /// There would be more nodes than may be.
    Large,
}

/// Lays out a term behind these nodes, beside shared signals with these roots, and gives its root.
/// There is none where it would take more nodes than may be.
pub fn lay_term(
    alloc: Global,
    nodes: &mut Items<Node>,
    shared: &[u32],
    term: &Term,
) -> Result<Option<u32>, Memory>
    requires term { IsLayable (length shared.now) term.now }
    requires few { length nodes.old.items ≤ most_nodes }
    ensures { IfOk result (IsLaid (lay shared.now nodes.old.items term.now) nodes.new.items) }
{
    let mut frames = Vec::new(alloc);
    let mut root = descend(alloc, &mut frames, shared, term)?;
    'on: loop {
        match ascend(alloc, &mut frames, nodes, shared, root)? {
            Ascent::Up(next) => root = next,
            Ascent::Done => return Ok(Some(root)),
            Ascent::Large => return Ok(None),
        }
    }
}

// Goes down to the first name in a term, and leaves a frame for each term that it passes.
fn descend<'a>(
    alloc: Global,
    frames: &mut Vec<Frame<'a>>,
    shared: &[u32],
    term: &'a Term,
) -> Result<u32, Memory>
    requires term { IsLayable (length shared.now) term.now }
    requires frames { AreReady (length shared.now) frames.old.items }
    ensures same { IfOk result (λ root. (nodes : List NodeValue) → replay shared.now frames.new.items (part nodes root) ≡ replay shared.now frames.old.items (lay shared.now nodes term.now)) }
    ensures less { OnOk result (weight frames.new.items + 1 ≤ weight frames.old.items + work term.now) }
    ensures ready { OnOk result (AreReady (length shared.now) frames.new.items) }
{
    let mut focus = term;
    'down: loop {
        match &focus.form {
            TermForm::Input(number) => return Ok(*number),
            TermForm::Node(place) => return Ok(shared[*place as usize]),
            TermForm::Lift {
                function,
                arguments,
            } => match &arguments.form {
                TermsForm::More { first, rest } => {
                    let function = value_in(alloc, function)?;
                    let done = Arguments::make();
                    put(
                        frames,
                        Frame::Lift {
                            function,
                            done,
                            rest,
                        },
                    )?;
                    focus = first;
                }
                TermsForm::End => unreachable!(),
            },
            TermForm::Foldp {
                function,
                base,
                signal,
            } => {
                let function = value_in(alloc, function)?;
                let base = value_in(alloc, base)?;
                put(frames, Frame::Foldp { function, base })?;
                focus = signal;
            }
            TermForm::Async { signal } => {
                put(frames, Frame::Async)?;
                focus = signal;
            }
            _ => unreachable!(),
        }
    }
}

// The value that a term is.
fn value_in(alloc: Global, term: &Term) -> Result<Value, Memory>
    requires { IsConstant term.now }
    ensures { IfOk result (λ value. value ≡ value_in term.now) }
{
    match &term.form {
        TermForm::Unit => Ok(Value::Unit),
        TermForm::Int(number) => Ok(Value::Int(*number)),
        _ => {
            let copy = term.copy(alloc)?;
            Ok(Value::Fun(Function::make(alloc, copy)?))
        }
    }
}

// Goes up from a term that is laid out, with this root, to the one around it, or on to the next argument there.
fn ascend<'a>(
    alloc: Global,
    frames: &mut Vec<Frame<'a>>,
    nodes: &mut Items<Node>,
    shared: &[u32],
    root: u32,
) -> Result<Ascent, Memory>
    requires few { length nodes.old.items ≤ most_nodes }
    requires frames { AreReady (length shared.now) frames.old.items }
    ensures { IfOk result (Leads shared.now frames.old.items nodes.old.items root frames.new.items nodes.new.items) }
{
    match innermost(frames) {
        None => Ok(Ascent::Done),
        Some(
            Frame::Lift {
                function,
                mut done,
                rest,
            },
        ) => {
            done.push(root);
            match &rest.form {
                TermsForm::More { first, rest } => {
                    put(
                        frames,
                        Frame::Lift {
                            function,
                            done,
                            rest,
                        },
                    )?;
                    Ok(Ascent::Up(descend(alloc, frames, shared, first)?))
                }
                TermsForm::End => {
                    let node = lift_node(alloc, function, done)?;
                    let added = add(nodes, node)?;
                    Ok(above(added))
                }
            }
        }
        Some(Frame::Foldp { function, base }) => {
            let node = foldp_node(alloc, function, base, root)?;
            let added = add(nodes, node)?;
            Ok(above(added))
        }
        Some(Frame::Async) => {
            let node = async_node(alloc, nodes.as_slice(), root)?;
            let added = add(nodes, node)?;
            Ok(above(added))
        }
    }
}

// Appends a node, where there is room for one more, and gives its number.
fn add(nodes: &mut Items<Node>, node: Node) -> Result<Option<u32>, Memory>
    requires { length nodes.old.items ≤ most_nodes }
    ensures { IfOk result (IsLaid (with_node nodes.old.items node) nodes.new.items) }
{
    let number = nodes.len() as u32;
    if number == MOST_NODES {
        discard(node);
        return Ok(None);
    }
    nodes.push(node)?;
    Ok(Some(number))
}

fn discard(_: Node) {}

fn above(added: Option<u32>) -> Ascent
    ensures { result ≡ ascent_of added }
{
    match added {
        Some(root) => Ascent::Up(root),
        None => Ascent::Large,
    }
}
