ghost use Rattle.std.specs.Prelude.{◌≡◌, ◌≤◌, ◌<◌, ◌^◌, IfOk};
ghost use Rattle.felm_stage.specs.Outcome.{IsStart, IsReached};
ghost use Rattle.felm_stage.specs.declared.reduction.Reached.TheVariants as reached;

use crate::contract::{Redex, contract};
use crate::search::{Found, seek};
use felm_graph::Finished;
use felm_term::{Items, Memory, Term};
use std::alloc::Global;

/// What a program's term comes to within a budget of steps.
#[derive(Drop)]
pub enum Reached {
    /// A finished pair, and the number of steps that lead to it.
    Pair { finished: Finished, steps: u64 },
    /// It takes more steps than the budget.
    Over,
}

/// Reduces a term of a signal type, and shares each signal that a let binds.
pub fn finish(alloc: Global, term: Term, budget: u64) -> Result<Reached, Memory>
    requires typed { IsStart term }
    requires small { budget < 2 ^ 32 }
    ensures { IfOk result (IsReached budget term) }
{
    let mut shared = Items::make(alloc);
    let mut frames = Vec::new(alloc);
    let mut focus = term;
    let mut left = budget;
    'steps: loop {
        match seek(alloc, &mut frames, focus, &mut left)? {
            Found::Over => return Ok(Reached::Over),
            Found::Done(last) => {
                let finished = Finished { shared, last };
                return Ok(Reached::Pair {
                    finished,
                    steps: budget - left,
                });
            }
            Found::Ready(redex) => {
                if left == 0 {
                    return Ok(over(redex));
                }
                left -= 1;
                focus = contract(alloc, &mut shared, redex)?;
            }
        }
    }
}

// There is a step left, and no budget for it.
fn over(_: Redex) -> Reached
    ensures { result ≡ reached.Over }
{
    Reached::Over
}
