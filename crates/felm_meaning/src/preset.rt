ghost use Rattle.std.specs.Prelude.{◌≡◌, IfOk, slice_get};
ghost use Rattle.std.specs.Option.{option_map};
ghost use Rattle.felm_meaning.specs.Meaning.{default_by, declared_value};
ghost use Rattle.felm_meaning.specs.Plans.{plan_of};
ghost use Rattle.felm_meaning.specs.Presets.{IsPresetFor, IsLiftable};

use crate::call::call_at;
use crate::plan::Plan;
use felm_graph::NodeKind;
use felm_term::{InputDecl, InputTy, Items, Memory, Value};
use std::alloc::Global;

/// Values in order.
pub type Values = Items<Value>;

/// The defaults of a plan's nodes.
#[derive(Debug, Drop)]
pub enum Preset {
    /// The default of every node, in the order of their numbers.
    All(Values),
    /// This node's default takes more steps than a turn may, and no smaller node's does.
    Over { node: u32 },
}

/// The value of every node before the first event.
pub fn defaults(alloc: Global, plan: &Plan) -> Result<Preset, Memory>
    ensures { IfOk result (IsPresetFor (plan_of plan.now)) }
{
    let nodes = plan.graph.nodes();
    let inputs = plan.graph.inputs().as_slice();
    let mut values = Values::make(alloc);
    for node in 0..nodes.len() {
        let kind = &nodes[node].kind;
        match default_of(
            alloc,
            kind,
            inputs,
            values.as_slice(),
            plan.limits.turn_steps,
        )? {
            Some(value) => values.push(value)?,
            None => return Ok(Preset::Over { node: node as u32 }),
        }
    }
    Ok(Preset::All(values))
}

// The default of a node, by those of the nodes before it.
fn default_of(
    alloc: Global,
    kind: &NodeKind,
    inputs: &[InputDecl],
    values: &[Value],
    budget: u64,
) -> Result<Option<Value>, Memory>
    requires { IsLiftable values.now kind.now }
    ensures { IfOk result (λ value. value ≡ default_by inputs.now budget (slice_get values.now) kind.now) }
{
    match kind {
        NodeKind::Input { number } => Ok(declared_at(inputs, *number)),
        NodeKind::Lift {
            function,
            arguments,
        } => call_at(alloc, function, values, arguments.as_slice(), budget),
        NodeKind::Foldp { base, .. } => Ok(Some(base.copy()?)),
        NodeKind::Async { argument } => value_at(values, *argument),
    }
}

fn declared_at(inputs: &[InputDecl], number: u32) -> Option<Value>
    ensures { result ≡ option_map declared_value (slice_get inputs.now number) }
{
    match inputs.get(number as usize) {
        Some(declared) => Some(declared_value(declared)),
        None => None,
    }
}

fn declared_value(declared: &InputDecl) -> Value
    ensures { result ≡ declared_value declared.now }
{
    match declared.ty {
        InputTy::Int => Value::Int(declared.default),
        InputTy::Unit => Value::Unit,
    }
}

fn value_at(values: &[Value], place: u32) -> Result<Option<Value>, Memory>
    ensures { IfOk result (λ value. value ≡ slice_get values.now place) }
{
    match values.get(place as usize) {
        Some(value) => Ok(Some(value.copy()?)),
        None => Ok(None),
    }
}
