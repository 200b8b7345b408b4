//! The node step: what a lift or a foldp makes of its node's value at a turn.
ghost use Rattle.std.specs.Prelude.{◌≡◌, ◌∷◌, [], map, IfOk};
ghost use Rattle.std.specs.List.{list_any};
ghost use Rattle.felm_term.specs.Values.{value_of};
ghost use Rattle.felm_term.specs.declared.value.Value.{Value};
ghost use Rattle.felm_meaning.specs.Step.{is_change, change_of, lift_step, foldp_step};
ghost use Rattle.felm_meaning.specs.Steps.{sent_by};
ghost use Rattle.felm_meaning.specs.Types.{IsCallable};

use crate::arguments::Arguments;
use crate::call::{call_on_arguments, call_on_two};
use felm_term::{Memory, Message, Value};
use std::alloc::Global;

/// What a turn does with its node's value.
#[derive(Debug, Drop)]
pub enum Step {
    /// The node changes to this value.
    Change(Value),
    /// It keeps the value that it has.
    Keep,
    /// Its call takes more steps than the budget.
    Over,
}

/// The step of a lift: the call of its function on its arguments' values, where one of them changed.
/// The terms of the function and of the values are copied once into the application that is reduced;
/// where there is no call, nothing is copied.
pub fn lift_step<A: Arguments>(
    alloc: Global,
    function: &Value,
    arguments: &A,
    budget: u64,
) -> Result<Step, Memory>
    requires { IsCallable function.now (map value_of (A.messages arguments.now)) }
    ensures { IfOk result (λ step. (old : Value) → sent_by old step ≡ lift_step function.now old (A.messages arguments.now) budget) }
{
    if !has_change(arguments) {
        return Ok(Step::Keep);
    }
    let value = call_on_arguments(alloc, function, arguments, budget)?;
    Ok(changed(value))
}

/// The step of a foldp: the call of its function on its argument's value and its own previous one,
/// where the argument changed. It copies as a lift's step does.
pub fn foldp_step(
    alloc: Global,
    function: &Value,
    previous: &Value,
    argument: &Message,
    budget: u64,
) -> Result<Step, Memory>
    requires { IsCallable function.now (value_of argument.now ∷ previous.now ∷ []) }
    ensures { IfOk result (λ step. sent_by previous.now step ≡ foldp_step function.now previous.now (argument.now ∷ []) budget) }
{
    match argument {
        Message::Change(value) => {
            let value = call_on_two(alloc, function, value, previous, budget)?;
            Ok(changed(value))
        }
        Message::NoChange(_) => Ok(Step::Keep),
    }
}

fn has_change<A: Arguments>(arguments: &A) -> bool
    ensures { result ≡ list_any is_change (A.messages arguments.now) }
{
    for port in 0..arguments.count() {
        if is_change(arguments.message(port)) {
            return true;
        }
    }
    false
}

/// Whether a message says that its signal changed.
pub fn is_change(message: &Message) -> bool
    ensures { result ≡ is_change message.now }
{
    matches!(message, Message::Change(_))
}

// The node changes to what its call gave.
fn changed(value: Option<Value>) -> Step
    ensures { (old : Value) → sent_by old result ≡ change_of value }
{
    match value {
        Some(value) => Step::Change(value),
        None => Step::Over,
    }
}
