ghost use Rattle.std.specs.Prelude.{◌≡◌, IfOk};
ghost use Rattle.felm_meaning.specs.Outcomes.{IsOutcomeOf};

use crate::outcome::{Outcome, outcome_of};
use crate::turn::Turn;
use felm_term::Memory;
use std::alloc::Global;
use std::marker::Model;

/// A turn with what it comes to, which contracts see as a `DoneValue`. Only `compute` makes one.
#[derive(Debug, Drop)]
pub struct Done {
    turn: Turn,
    outcome: Outcome,
}

impl Model for Done {
    ghost use Rattle.felm_meaning.specs.Outcomes.{DoneValue};

    ghost Value = { DoneValue };

    ghost use Rattle.std.specs.Coded.{codes};
    ghost use Rattle.felm_term.specs.Codes.{coded_term};

    ghost coded = { Prim.hlevel (codes, coded_term) };

    ghost use Rattle.felm_meaning.specs.DoneInside.{done_of};
    ghost use Rattle.felm_meaning.specs.Outcomes.{IsOutcomeOf};

    ghost view = { done_of };

    ghost invariant = { λ a. IsOutcomeOf a.turn a.outcome };
}

impl Done {
    /// The turn.
    pub fn turn(&self) -> &Turn
        ensures { result.now ≡ self.now.turn }
    {
        &self.turn
    }

    /// What it comes to.
    pub fn outcome(&self) -> &Outcome
        ensures outcome { result.now ≡ self.now.outcome }
        ensures step { IsOutcomeOf self.now.turn self.now.outcome }
    {
        &self.outcome
    }
}

/// Computes a turn, at the price of its call: the terms of the function and of its arguments are
/// copied once into the application that is reduced, and nothing is copied where there is no call.
pub fn compute(alloc: Global, turn: Turn) -> Result<Done, Memory>
    ensures { IfOk result (λ done. done.turn ≡ turn) }
{
    let outcome = outcome_of(alloc, &turn)?;
    Ok(Done { turn, outcome })
}
