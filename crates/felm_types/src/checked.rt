//! Checked programs.

use felm_term::{Inputs, Term, Ty};
use std::marker::Model;

/// A program whose expression is a signal of a simple type, which contracts see as a `CheckedProgram`.
///
/// Its term is closed: it names no binder outside, and no shared signal.
#[derive(Debug, Drop)]
pub struct Checked {
    pub term: Term,
    /// The type of the term.
    pub ty: Ty,
    /// The declared inputs, in order.
    pub inputs: Inputs,
}

impl Model for Checked {
    ghost use Rattle.std.specs.Prelude.{IsTrue, []};
    ghost use Rattle.felm_term.specs.CoreType.{is_simple_signal};
    ghost use Rattle.felm_term.specs.Typing.{HasType};
    ghost use Rattle.felm_term.specs.Inputs.{signal_types};
    ghost use Rattle.felm_types.specs.CheckedProgram.{CheckedProgram};
    ghost use Rattle.std.specs.Coded.{codes};
    ghost use Rattle.felm_term.specs.Codes.{coded_term, coded_type};

    ghost Value = { CheckedProgram };

    ghost coded = { Prim.hlevel (codes, coded_term, coded_type) };

    ghost view = { λ a. record { term = a.term; ty = a.ty; inputs = a.inputs.items } };

    ghost invariant = { λ a. HasType (signal_types a.inputs.items) [] [] a.term a.ty
        × IsTrue (is_simple_signal a.ty) };
}
