ghost use Rattle.std.specs.Prelude.{◌≡◌, ℕ, ◌+◌, [], ◌∷◌, ◌++◌, OnOk, IfOk, MatchOption};
ghost use Rattle.felm_term.specs.CoreType.{CoreType};
ghost use Rattle.felm_term.specs.CoreTerm as core;
ghost use Rattle.felm_term.specs.TermView.{terms_of_form};
ghost use Rattle.felm_term.specs.Reduction.{IsValue, IsSignalTerm, AreSharedSignals};
ghost use Rattle.felm_stage.specs.Frames.{behind, around, IsGood, work_all, work_in};
ghost use Rattle.felm_stage.specs.Moves.{IsTypedPart, IsMove};

use crate::contract::Redex;
use crate::frame::{Frame, Move, put};
use felm_term::{Memory, Term, TermForm, Terms, TermsForm, Ty, boxed};
use std::alloc::Global;

/// Goes from a value to the term around it.
pub fn climb_value(frame: Frame, value: Term) -> Move
    requires typed { IsTypedPart (around frame value) }
    requires value { IsValue value }
    ensures { (left : ℕ) → IsMove (around frame value) (work_in frame) left left result }
{
    match frame {
        Frame::Argument(argument) => {
            let (param, body) = function_of(value);
            Move::Ready(Redex::Application {
                param,
                body,
                argument,
            })
        }
        Frame::Body(body) => Move::Ready(Redex::Let { value, body }),
        Frame::Arguments { .. } => unreachable!(),
        Frame::Foldp { .. } => unreachable!(),
        Frame::Async => unreachable!(),
    }
}

/// Goes from a signal term to the term around it.
pub fn climb_signal(alloc: Global, frame: Frame, signal: Term) -> Result<Move, Memory>
    requires typed { IsTypedPart (around frame signal) }
    requires signal { IsSignalTerm signal }
    requires good { IsGood frame }
    ensures { IfOk result (λ move. (left : ℕ) → IsMove (around frame signal) (work_in frame) left left move) }
{
    match frame {
        Frame::Body(body) => Ok(Move::Ready(Redex::Share { signal, body })),
        Frame::Async => Ok(Move::Signal(async_of(alloc, signal)?)),
        Frame::Foldp { function, base } => {
            Ok(Move::Signal(foldp_of(alloc, function, base, signal)?))
        }
        Frame::Arguments {
            function,
            done,
            rest,
        } => next_argument(alloc, function, done, signal, rest),
        Frame::Argument(_) => unreachable!(),
    }
}

// Goes on to the next argument of a lift, or makes the lift.
fn next_argument(
    alloc: Global,
    function: Term,
    mut done: Vec<Term>,
    signal: Term,
    rest: Terms,
) -> Result<Move, Memory>
    requires function { IsValue function }
    requires done { AreSharedSignals done.items }
    requires signal { IsSignalTerm signal }
    ensures { IfOk result (λ move. (left : ℕ) → IsMove (core.Lift function (behind done.items (core.More signal rest))) (work_all rest + 1) left left move) }
{
    match form_of(rest) {
        TermsForm::More { first, rest } => {
            put(&mut done, signal)?;
            let frame = Frame::Arguments {
                function,
                done,
                rest: Box::into_inner(rest),
            };
            Ok(Move::Into(frame, first))
        }
        TermsForm::End => {
            let arguments = gather(alloc, done, signal)?;
            Ok(Move::Signal(lift_of(alloc, function, arguments)?))
        }
    }
}

// The form of a list of terms, by value.
fn form_of(terms: Terms) -> TermsForm
    ensures { terms_of_form result ≡ terms }
{
    terms.form
}

fn function_of(value: Term) -> (Ty, Term)
    requires { (p : CoreType) × (b : core.CoreTerm) × (value ≡ core.Lam p b) }
    ensures { value ≡ core.Lam result.0 result.1 }
{
    match value.form {
        TermForm::Lam { param, body } => (param, Box::into_inner(body)),
        _ => unreachable!(),
    }
}

fn last_of(terms: &mut Vec<Term>) -> Option<Term>
    ensures { MatchOption result ((terms.old.items ≡ []) × (terms.new.items ≡ [])) (λ t. terms.old.items ≡ terms.new.items ++ t ∷ []) }
{
    terms.pop()
}

fn async_of(alloc: Global, signal: Term) -> Result<Term, Memory>
    ensures { IfOk result (λ term. term ≡ core.Async signal) }
{
    let signal = boxed(alloc, signal)?;
    Ok(Term {
        form: TermForm::Async { signal },
    })
}

fn foldp_of(alloc: Global, function: Term, base: Term, signal: Term) -> Result<Term, Memory>
    ensures { IfOk result (λ term. term ≡ core.Foldp function base signal) }
{
    let function = boxed(alloc, function)?;
    let base = boxed(alloc, base)?;
    let signal = boxed(alloc, signal)?;
    Ok(Term {
        form: TermForm::Foldp {
            function,
            base,
            signal,
        },
    })
}

fn lift_of(alloc: Global, function: Term, arguments: Terms) -> Result<Term, Memory>
    ensures { IfOk result (λ term. term ≡ core.Lift function arguments) }
{
    let function = boxed(alloc, function)?;
    let arguments = boxed(alloc, arguments)?;
    Ok(Term {
        form: TermForm::Lift {
            function,
            arguments,
        },
    })
}

// The arguments that are done, and a last one.
#[tactic(auto, using(crate::proofs::Climbs::behind_push))]
fn gather(alloc: Global, mut done: Vec<Term>, last: Term) -> Result<Terms, Memory>
    ensures { IfOk result (λ terms. terms ≡ behind done.items (core.More last core.End)) }
{
    let end = Terms {
        form: TermsForm::End,
    };
    let mut terms = before(alloc, last, end)?;
    'back: while let Some(first) = last_of(&mut done) {
        terms = before(alloc, first, terms)?;
    }
    Ok(terms)
}

fn before(alloc: Global, first: Term, rest: Terms) -> Result<Terms, Memory>
    ensures { IfOk result (λ terms. terms ≡ core.More first rest) }
{
    let rest = boxed(alloc, rest)?;
    Ok(Terms {
        form: TermsForm::More { first, rest },
    })
}
