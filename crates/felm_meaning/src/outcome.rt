ghost use Rattle.std.specs.Prelude.{◌≡◌, IfOk};
ghost use Rattle.felm_meaning.specs.Step.{step};
ghost use Rattle.felm_meaning.specs.Steps.{sent_by};
ghost use Rattle.felm_meaning.specs.Outcomes.{sent_of, IsOutcomeOf};

use crate::job::Job;
use crate::step::{Step, foldp_step, lift_step};
use crate::turn::Turn;
use felm_term::{Memory, Message, Value};
use std::alloc::Global;

/// What a turn comes to.
#[derive(Debug, Drop)]
pub enum Outcome {
    /// The node sends this message.
    Sent(Message),
    /// Its call takes more steps than the budget, so it sends none.
    Over,
}

/// The outcome of a turn.
pub fn outcome_of(alloc: Global, turn: &Turn) -> Result<Outcome, Memory>
    ensures { IfOk result (IsOutcomeOf turn.now) }
{
    let step = step_of(alloc, turn)?;
    sent(turn.previous(), step)
}

fn step_of(alloc: Global, turn: &Turn) -> Result<Step, Memory>
    ensures { IfOk result (λ done. sent_by turn.now.previous done ≡ step turn.now.job turn.now.previous turn.now.inputs turn.now.budget) }
{
    let inputs = turn.inputs();
    let budget = turn.budget();
    match turn.job() {
        Job::Lift { function } => lift_step(alloc, function, inputs, budget),
        Job::Foldp { function } => {
            foldp_step(alloc, function, turn.previous(), inputs.at(0), budget)
        }
    }
}

// What the node sends, by the value that it had.
fn sent(previous: &Value, step: Step) -> Result<Outcome, Memory>
    ensures { IfOk result (λ outcome. sent_of outcome ≡ sent_by previous.now step) }
{
    match step {
        Step::Change(value) => Ok(Outcome::Sent(Message::Change(value))),
        Step::Keep => Ok(Outcome::Sent(Message::NoChange(previous.copy()?))),
        Step::Over => Ok(Outcome::Over),
    }
}
