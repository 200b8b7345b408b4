ghost use Rattle.std.specs.Prelude.{◌≡◌, IfOk};
ghost use Rattle.felm_term.specs.Typing.{HasSimpleType};
ghost use Rattle.felm_reduce.specs.Outcome.{IsOutcome, IsOnlyOutcome, GivesFunction};
ghost use Rattle.felm_reduce.specs.declared.reduction.Reduced.TheVariants as reduced;

use crate::contract::{Redex, contract};
use crate::search::{Found, seek};
use felm_term::{Memory, Term, Value};
use std::alloc::Global;

/// What a term comes to within a budget of steps.
#[derive(Debug, Drop)]
pub enum Reduced {
    /// Its value, and the number of steps that lead to it.
    Value { value: Value, steps: u64 },
    /// It takes more steps than the budget.
    Over,
}

/// Reduces a closed term of a simple type to its value, in at most `budget` steps.
///
/// A value as it stands takes no step, and is within any budget. The time is proportional to the steps and to the sizes of the terms that they touch.
pub fn reduce(alloc: Global, term: Term, budget: u64) -> Result<Reduced, Memory>
    requires { HasSimpleType term }
    ensures outcome { IfOk result (IsOutcome budget term) }
    ensures only { IfOk result (IsOnlyOutcome budget term) }
    ensures function { IfOk result GivesFunction }
{
    let mut frames = Vec::new(alloc);
    let mut focus = term;
    'steps: for steps in 0..budget {
        match seek(alloc, &mut frames, focus)? {
            Found::Done(value) => return Ok(Reduced::Value { value, steps }),
            Found::Ready(redex) => focus = contract(alloc, redex)?,
        }
    }
    match seek(alloc, &mut frames, focus)? {
        Found::Done(value) => Ok(Reduced::Value {
            value,
            steps: budget,
        }),
        Found::Ready(redex) => Ok(over(redex)),
    }
}

// There is a step left, and no budget for it.
fn over(_: Redex) -> Reduced
    ensures { result ≡ reduced.Over }
{
    Reduced::Over
}
