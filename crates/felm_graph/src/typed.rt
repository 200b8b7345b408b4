//! Nodes with the types of their values.
ghost use Rattle.std.specs.Prelude.{◌≡◌, IfOk};
ghost use Rattle.felm_term.specs.declared.value.Value.TheVariants as value;
ghost use Rattle.felm_graph.specs.Nodes.{type_at};
ghost use Rattle.felm_graph.specs.Layout.{value_type, result_type, input_node, lift_node, foldp_node, async_node};

use crate::arguments::Arguments;
use crate::node::{Node, NodeKind};
use felm_term::{Function, InputDecl, InputTy, Memory, Scope, Ty, TyForm, Value, type_of};
use std::alloc::Global;

/// The node of a declared input.
pub fn input_node(number: u32, declared: &InputDecl) -> Node
    ensures { result ≡ input_node number declared.now }
{
    let form = match declared.ty {
        InputTy::Int => TyForm::Int,
        InputTy::Unit => TyForm::Unit,
    };
    Node {
        kind: NodeKind::Input { number },
        ty: Ty { form },
    }
}

/// A node that applies a function to its arguments' values.
pub fn lift_node(alloc: Global, function: Value, arguments: Arguments) -> Result<Node, Memory>
    ensures { IfOk result (λ node. node ≡ lift_node function arguments) }
{
    let ty = result_type(value_type(alloc, &function)?, arguments.len());
    let kind = NodeKind::Lift {
        function,
        arguments,
    };
    Ok(Node { kind, ty })
}

/// A node that applies a function to its argument's value and its own previous one.
pub fn foldp_node(
    alloc: Global,
    function: Value,
    base: Value,
    argument: u32,
) -> Result<Node, Memory>
    ensures { IfOk result (λ node. node ≡ foldp_node function base argument) }
{
    let ty = value_type(alloc, &base)?;
    let kind = NodeKind::Foldp {
        function,
        base,
        argument,
    };
    Ok(Node { kind, ty })
}

/// A node that passes on the changes of its argument, which is among these nodes.
pub fn async_node(alloc: Global, nodes: &[Node], argument: u32) -> Result<Node, Memory>
    ensures { IfOk result (λ node. node ≡ async_node nodes.now argument) }
{
    let ty = type_at(alloc, nodes, argument)?;
    let kind = NodeKind::Async { argument };
    Ok(Node { kind, ty })
}

// The type of a node's values. It is unit past the last node.
fn type_at(alloc: Global, nodes: &[Node], number: u32) -> Result<Ty, Memory>
    ensures { IfOk result (λ ty. ty ≡ type_at nodes.now number) }
{
    match nodes.get(number as usize) {
        Some(node) => node.ty.copy(alloc),
        None => Ok(Ty { form: TyForm::Unit }),
    }
}

fn value_type(alloc: Global, value: &Value) -> Result<Ty, Memory>
    ensures { IfOk result (λ ty. ty ≡ value_type value.now) }
{
    match value {
        Value::Unit => Ok(Ty { form: TyForm::Unit }),
        Value::Int(_) => Ok(Ty { form: TyForm::Int }),
        Value::Fun(function) => function_type(alloc, function),
    }
}

fn function_type(alloc: Global, function: &Function) -> Result<Ty, Memory>
    ensures { IfOk result (λ ty. ty ≡ value_type (value.Fun function.now)) }
{
    match type_of(alloc, function.as_term(), &Scope::Outside, &[], &[])? {
        Some(ty) => Ok(ty),
        None => unreachable!(),
    }
}

// What a function of this type gives, once it has taken so many values.
fn result_type(function: Ty, taken: usize) -> Ty
    ensures { result ≡ result_type taken function }
{
    if taken == 0 {
        return function;
    }
    match function.form {
        TyForm::Arrow { to, .. } => result_type(Box::into_inner(to), taken - 1),
        form => Ty { form },
    }
}
