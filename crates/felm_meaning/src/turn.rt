ghost use Rattle.std.specs.Prelude.{◌≡◌};
ghost use Rattle.felm_meaning.specs.Types.{TurnFits};

use crate::job::Job;
use crate::turn_inputs::TurnInputs;
use felm_term::Value;
use std::marker::Model;

/// All that a node needs to send its message at one position, which contracts see as a `TurnValue`.
/// The job's function may be called on these values.
#[derive(Debug, Drop)]
pub struct Turn {
    node: u32,
    position: u64,
    job: Job,
    previous: Value,
    inputs: TurnInputs,
    budget: u64,
}

impl Model for Turn {
    ghost use Rattle.felm_meaning.specs.Turns.{TurnValue};

    ghost Value = { TurnValue };

    ghost use Rattle.std.specs.Coded.{codes};
    ghost use Rattle.felm_term.specs.Codes.{coded_term};

    ghost coded = { Prim.hlevel (codes, coded_term) };

    ghost use Rattle.felm_meaning.specs.TurnInside.{turn_of};
    ghost use Rattle.felm_meaning.specs.Types.{TurnFits};

    ghost view = { turn_of };

    ghost invariant = { λ a. TurnFits a.job a.previous a.inputs };
}

impl Turn {
    /// The turn of a node at a position, counted from 1, with the value that the node had before,
    /// the messages of its arguments and a budget of steps.
    pub fn make(
        node: u32,
        position: u64,
        job: Job,
        previous: Value,
        inputs: TurnInputs,
        budget: u64,
    ) -> Turn
        requires { TurnFits job previous inputs }
        ensures { result ≡ record { node = node; position = position; job = job; previous = previous; inputs = inputs; budget = budget } }
    {
        Turn {
            node,
            position,
            job,
            previous,
            inputs,
            budget,
        }
    }

    /// The node whose turn it is.
    pub fn node(&self) -> u32
        ensures { result ≡ self.now.node }
    {
        self.node
    }

    /// The position of its message.
    pub fn position(&self) -> u64
        ensures { result ≡ self.now.position }
    {
        self.position
    }

    /// What the node does, which fits the turn's values.
    pub fn job(&self) -> &Job
        ensures job { result.now ≡ self.now.job }
        ensures fits { TurnFits self.now.job self.now.previous self.now.inputs }
    {
        &self.job
    }

    /// The value that the node had at the position before.
    pub fn previous(&self) -> &Value
        ensures { result.now ≡ self.now.previous }
    {
        &self.previous
    }

    /// The messages of its arguments at the position.
    pub fn inputs(&self) -> &TurnInputs
        ensures { result.now ≡ self.now.inputs }
    {
        &self.inputs
    }

    /// How many steps of reduction its call may take.
    pub fn budget(&self) -> u64
        ensures { result ≡ self.now.budget }
    {
        self.budget
    }
}
