//! Lifts.
ghost use Rattle.std.specs.Prelude.{◌≡◌, Ok, IfOk, IfErr};
ghost use Rattle.std.specs.Option.{option_and_then};
ghost use Rattle.felm_term.specs.CoreTerm as core;
ghost use Rattle.felm_term.specs.CoreType.{is_simple};
ghost use Rattle.felm_term.specs.FoundType.{rest_type, when};
ghost use Rattle.felm_types.specs.Judgement.{row, IsFaultOf};
ghost use Rattle.felm_types.specs.Lift.{lifted};

use crate::fault::TypeFault;
use crate::whole::{Typed, row};
use felm_term::rows::{is_liftable, rest_type};
use felm_term::{Memory, Term, TermForm, Terms, Ty, TyForm, boxed};
use std::alloc::Global;

/// The arguments of a lift.
#[derive(Drop)]
pub struct Taken {
    pub terms: Box<Terms>,
    /// What is left of the function's type once it has taken their values, if it takes them.
    pub left: Option<Ty>,
}

/// A type of the simple layer.
pub fn simple(ty: Ty) -> Option<Ty>
    ensures { result ≡ when (is_simple ty) ty }
{
    if ty.is_simple() { Some(ty) } else { None }
}

/// What is left of a function's type once it has taken the values of one signal more.
pub fn left_after(left: Option<Ty>, signal: &Ty) -> Option<Ty>
    ensures { result ≡ option_and_then (λ function. rest_type function signal.now) left }
{
    rest_type(left?, signal)
}

pub fn lift(
    alloc: Global,
    at: usize,
    function: Box<Term>,
    arguments: Taken,
) -> Result<Typed, TypeFault>
    ensures ty { IfOk result (λ whole.
        row at (lifted arguments.left arguments.terms.value) ≡ Ok whole.ty) }
    ensures term { IfOk result (λ whole.
        whole.term.value ≡ core.Lift function.value arguments.terms.value) }
    ensures fault { IfErr result (IsFaultOf (row at (lifted arguments.left arguments.terms.value))) }
{
    let Taken { terms, left } = arguments;
    let ty = row(at, lifted(alloc, left, &terms)?)?;
    let form = TermForm::Lift {
        function,
        arguments: terms,
    };
    Ok(Typed::make(alloc, form, ty)?)
}

// The type of a lift, by what is left of its function's type and by its arguments.
fn lifted(alloc: Global, left: Option<Ty>, arguments: &Terms) -> Result<Option<Ty>, Memory>
    ensures { IfOk result (λ ty. ty ≡ lifted left arguments.now) }
{
    match left {
        Some(values) if is_liftable(arguments) => Ok(Some(Ty {
            form: TyForm::Signal(boxed(alloc, values)?),
        })),
        _ => Ok(None),
    }
}
