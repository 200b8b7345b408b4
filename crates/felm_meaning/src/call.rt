//! Calls of functions on values.
ghost use Rattle.std.specs.Prelude.{◌≡◌, ◌<◌, [], ◌∷◌, length, map, All, IfOk};
ghost use Rattle.std.specs.Option.{option_map};
ghost use Rattle.felm_term.specs.CoreTerm.{App};
ghost use Rattle.felm_term.specs.Typing.{HasSimpleType};
ghost use Rattle.felm_term.specs.Values.{term_of, value_of};
ghost use Rattle.felm_laws.specs.Calls.{value_within};
ghost use Rattle.felm_graph.specs.Layout.{value_in};
ghost use Rattle.felm_meaning.specs.Step.{call_value};
ghost use Rattle.felm_meaning.specs.Types.{IsCallable};
ghost use Rattle.felm_meaning.specs.Values.{values_at};

use crate::arguments::Arguments;
use felm_reduce::{Reduced, reduce};
use felm_term::{Memory, Message, Term, TermForm, Value, boxed};
use std::alloc::Global;

/// The value of a call on the values of these arguments, or none where it takes more steps than the
/// budget.
pub fn call_on_arguments<A: Arguments>(
    alloc: Global,
    function: &Value,
    arguments: &A,
    budget: u64,
) -> Result<Option<Value>, Memory>
    requires { IsCallable function.now (map value_of (A.messages arguments.now)) }
    ensures { IfOk result (λ value. value ≡ call_value function.now (map value_of (A.messages arguments.now)) budget) }
{
    let mut application = function.to_term(alloc)?;
    for port in 0..arguments.count() {
        application = apply(alloc, application, value_of(arguments.message(port)))?;
    }
    value_within(alloc, application, budget)
}

/// The value of a call on two values, or none where it takes more steps than the budget.
pub fn call_on_two(
    alloc: Global,
    function: &Value,
    first: &Value,
    second: &Value,
    budget: u64,
) -> Result<Option<Value>, Memory>
    requires { IsCallable function.now (first.now ∷ second.now ∷ []) }
    ensures { IfOk result (λ value. value ≡ call_value function.now (first.now ∷ second.now ∷ []) budget) }
{
    let application = apply(alloc, function.to_term(alloc)?, first)?;
    let application = apply(alloc, application, second)?;
    value_within(alloc, application, budget)
}

/// The same of a call on the values at these places.
pub fn call_at(
    alloc: Global,
    function: &Value,
    values: &[Value],
    places: &[u32],
    budget: u64,
) -> Result<Option<Value>, Memory>
    requires there { All (λ place. place < length values.now) places.now }
    requires callable { IsCallable function.now (values_at values.now places.now) }
    ensures { IfOk result (λ value. value ≡ call_value function.now (values_at values.now places.now) budget) }
{
    let mut application = function.to_term(alloc)?;
    for place in places {
        application = apply(alloc, application, &values[*place as usize])?;
    }
    value_within(alloc, application, budget)
}

// A function, or what one argument and more made of it, on its next argument.
fn apply(alloc: Global, function: Term, argument: &Value) -> Result<Term, Memory>
    ensures { IfOk result (λ application. application ≡ App function (term_of argument.now)) }
{
    let function = boxed(alloc, function)?;
    let argument = boxed(alloc, argument.to_term(alloc)?)?;
    Ok(Term {
        form: TermForm::App { function, argument },
    })
}

// What an application reduces to in at most so many steps.
fn value_within(alloc: Global, application: Term, budget: u64) -> Result<Option<Value>, Memory>
    requires { HasSimpleType application }
    ensures { IfOk result (λ value. value ≡ option_map value_in (value_within budget application)) }
{
    match reduce(alloc, application, budget)? {
        Reduced::Value { value, .. } => Ok(Some(value)),
        Reduced::Over => Ok(None),
    }
}

fn value_of(message: &Message) -> &Value
    ensures { result.now ≡ value_of message.now }
{
    match message {
        Message::Change(value) => value,
        Message::NoChange(value) => value,
    }
}
