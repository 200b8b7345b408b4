//! Equality of plans, and of what turns are made of. Nothing here takes memory.
ghost use Rattle.std.specs.Prelude.{◌≡◌, ◌↔◌, IsTrue};
ghost use Rattle.felm_meaning.specs.Plans.{SamePlan};

use crate::job::Job;
use crate::plan::Plan;
use felm_graph::{Graph, Node, NodeKind};
use felm_term::{Event, InputDecl, Limits, Message, Value, same_function, same_ty};

/// Whether two plans are equal.
pub fn same_plan(left: &Plan, right: &Plan) -> bool
    ensures { IsTrue result ↔ SamePlan left.now right.now }
{
    same_limits(&left.limits, &right.limits)
        && same_graph(&left.graph, &right.graph)
        && same_events(left.script.as_slice(), right.script.as_slice())
}

/// Whether two values are equal: of one kind, and with equal parts. As closed terms alone two values
/// of different kinds might be equal.
pub fn equal_values(left: &Value, right: &Value) -> bool
    ensures { IsTrue result ↔ (left.now ≡ right.now) }
{
    match (left, right) {
        (Value::Unit, Value::Unit) => true,
        (Value::Int(number), Value::Int(other)) => *number == *other,
        (Value::Fun(function), Value::Fun(other)) => same_function(function, other),
        _ => false,
    }
}

/// Whether two messages are equal: of one kind, with equal values.
pub fn equal_messages(left: &Message, right: &Message) -> bool
    ensures { IsTrue result ↔ (left.now ≡ right.now) }
{
    match (left, right) {
        (Message::Change(value), Message::Change(other)) => equal_values(value, other),
        (Message::NoChange(value), Message::NoChange(other)) => equal_values(value, other),
        _ => false,
    }
}

/// Whether two lists of messages are equal: as many, each equal to the one at its place.
pub fn equal_message_lists(left: &[Message], right: &[Message]) -> bool
    ensures { IsTrue result ↔ (left.now ≡ right.now) }
{
    if left.len() != right.len() {
        return false;
    }
    for (place, message) in left.iter().enumerate() {
        if !equal_messages(message, &right[place]) {
            return false;
        }
    }
    true
}

/// Whether two jobs are equal: of one kind, with equal functions.
pub fn equal_jobs(left: &Job, right: &Job) -> bool
    ensures { IsTrue result ↔ (left.now ≡ right.now) }
{
    match (left, right) {
        (Job::Lift { function }, Job::Lift { function: other }) => equal_values(function, other),
        (Job::Foldp { function }, Job::Foldp { function: other }) => equal_values(function, other),
        _ => false,
    }
}

fn same_limits(left: &Limits, right: &Limits) -> bool
    ensures { IsTrue result ↔ (left.now ≡ right.now) }
{
    *left == *right
}

fn same_graph(left: &Graph, right: &Graph) -> bool
    ensures { IsTrue result ↔ (left.now ≡ right.now) }
{
    left.main() == right.main()
        && same_inputs(left.inputs().as_slice(), right.inputs().as_slice())
        && same_nodes(left.nodes(), right.nodes())
}

fn same_events(left: &[Event], right: &[Event]) -> bool
    ensures { IsTrue result ↔ (left.now ≡ right.now) }
{
    if left.len() != right.len() {
        return false;
    }
    for (place, event) in left.iter().enumerate() {
        if !same_event(event, &right[place]) {
            return false;
        }
    }
    true
}

fn same_event(left: &Event, right: &Event) -> bool
    ensures { IsTrue result ↔ (left.now ≡ right.now) }
{
    left.source == right.source && equal_values(&left.value, &right.value)
}

fn same_nodes(left: &[Node], right: &[Node]) -> bool
    ensures { IsTrue result ↔ (left.now ≡ right.now) }
{
    if left.len() != right.len() {
        return false;
    }
    for (place, node) in left.iter().enumerate() {
        if !same_node(node, &right[place]) {
            return false;
        }
    }
    true
}

fn same_node(left: &Node, right: &Node) -> bool
    ensures { IsTrue result ↔ (left.now ≡ right.now) }
{
    same_kind(&left.kind, &right.kind) && same_ty(&left.ty, &right.ty)
}

fn same_kind(left: &NodeKind, right: &NodeKind) -> bool
    ensures { IsTrue result ↔ (left.now ≡ right.now) }
{
    match (left, right) {
        (NodeKind::Input { number }, NodeKind::Input { number: other }) => *number == *other,
        (
            NodeKind::Lift {
                function,
                arguments,
            },
            NodeKind::Lift {
                function: other_function,
                arguments: other_arguments,
            },
        ) => {
            equal_values(function, other_function)
                && arguments.as_slice() == other_arguments.as_slice()
        }
        (
            NodeKind::Foldp {
                function,
                base,
                argument,
            },
            NodeKind::Foldp {
                function: other_function,
                base: other_base,
                argument: other_argument,
            },
        ) => {
            equal_values(function, other_function)
                && equal_values(base, other_base)
                && *argument == *other_argument
        }
        (NodeKind::Async { argument }, NodeKind::Async { argument: other }) => *argument == *other,
        _ => false,
    }
}

fn same_inputs(left: &[InputDecl], right: &[InputDecl]) -> bool
    ensures { IsTrue result ↔ (left.now ≡ right.now) }
{
    if left.len() != right.len() {
        return false;
    }
    for (place, declared) in left.iter().enumerate() {
        if !same_declared(declared, &right[place]) {
            return false;
        }
    }
    true
}

fn same_declared(left: &InputDecl, right: &InputDecl) -> bool
    ensures { IsTrue result ↔ (left.now ≡ right.now) }
{
    left.name.as_str() == right.name.as_str()
        && left.ty == right.ty
        && left.default == right.default
}
