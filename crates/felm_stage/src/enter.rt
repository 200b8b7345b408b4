ghost use Rattle.std.specs.Prelude.{◌≡◌, ℤ, ℕ, ◌<◌, IfOk};
ghost use Rattle.felm_term.specs.CoreTerm as core;
ghost use Rattle.felm_term.specs.TermView.{term_of_form, terms_of_form};
ghost use Rattle.felm_term.specs.Reduction.{IsValue, IsSignalTerm};
ghost use Rattle.felm_term.specs.Typing.{HasSimpleType};
ghost use Rattle.felm_stage.specs.Frames.{work};
ghost use Rattle.felm_stage.specs.Moves.{IsTypedPart, IsMove};

use crate::contract::Redex;
use crate::frame::{Frame, Move, over};
use crate::part::reduce_part;
use felm_term::{Memory, Term, TermForm, Terms, TermsForm};
use std::alloc::Global;

/// Looks into a term: finds what it is, or goes on to a part of it.
pub fn enter(alloc: Global, term: Term, left: &mut u64) -> Result<Move, Memory>
    requires { IsTypedPart term }
    ensures { IfOk result (IsMove term (work term) left.old left.new) }
{
    match form_of(term) {
        TermForm::Unit => Ok(value(TermForm::Unit)),
        TermForm::Int(number) => Ok(value(TermForm::Int(number))),
        TermForm::Lam { param, body } => Ok(value(TermForm::Lam { param, body })),
        TermForm::Input(number) => Ok(signal(TermForm::Input(number))),
        TermForm::Node(number) => Ok(signal(TermForm::Node(number))),
        TermForm::App { function, argument } => Ok(Move::Into(
            Frame::Argument(Box::into_inner(argument)),
            Box::into_inner(function),
        )),
        TermForm::Let { bound, body } => Ok(Move::Into(
            Frame::Body(Box::into_inner(body)),
            Box::into_inner(bound),
        )),
        TermForm::Async { signal } => Ok(Move::Into(Frame::Async, Box::into_inner(signal))),
        TermForm::Bin {
            op,
            left: first,
            right,
        } => {
            let form = TermForm::Bin {
                op,
                left: first,
                right,
            };
            enter_operation(alloc, Term { form }, left)
        }
        TermForm::If { condition, yes, no } => enter_conditional(
            alloc,
            Box::into_inner(condition),
            Box::into_inner(yes),
            Box::into_inner(no),
            left,
        ),
        TermForm::Lift {
            function,
            arguments,
        } => enter_lift(
            alloc,
            Box::into_inner(function),
            Box::into_inner(arguments),
            left,
        ),
        TermForm::Foldp {
            function,
            base,
            signal,
        } => enter_foldp(
            alloc,
            Box::into_inner(function),
            Box::into_inner(base),
            Box::into_inner(signal),
            left,
        ),
        TermForm::Var(_) => unreachable!(),
    }
}

// A term's form, by value.
fn form_of(term: Term) -> TermForm
    ensures { term_of_form result ≡ term }
{
    term.form
}

fn value(form: TermForm) -> Move
    requires { IsValue (term_of_form form) }
    ensures { (left most : ℕ) → 0 < most → IsMove (term_of_form form) most left left result }
{
    Move::Value(Term { form })
}

fn signal(form: TermForm) -> Move
    requires { IsSignalTerm (term_of_form form) }
    ensures { (left most : ℕ) → 0 < most → IsMove (term_of_form form) most left left result }
{
    Move::Signal(Term { form })
}

// An operation has a simple type, so it has a value, or takes too many steps.
fn enter_operation(alloc: Global, term: Term, left: &mut u64) -> Result<Move, Memory>
    requires { HasSimpleType term }
    ensures { IfOk result (IsMove term 1 left.old left.new) }
{
    match reduce_part(alloc, term, left)? {
        Some(value) => Ok(Move::Value(value)),
        None => Ok(Move::Over),
    }
}

fn enter_conditional(
    alloc: Global,
    condition: Term,
    yes: Term,
    no: Term,
    left: &mut u64,
) -> Result<Move, Memory>
    requires { IsTypedPart (core.If condition yes no) }
    ensures { IfOk result (IsMove (core.If condition yes no) 1 left.old left.new) }
{
    let Some(condition) = reduce_part(alloc, condition, left)? else {
        return Ok(over((yes, no)));
    };
    let number = number_of(condition);
    Ok(Move::Ready(Redex::Conditional { number, yes, no }))
}

fn enter_lift(
    alloc: Global,
    function: Term,
    arguments: Terms,
    left: &mut u64,
) -> Result<Move, Memory>
    requires { IsTypedPart (core.Lift function arguments) }
    ensures { IfOk result (IsMove (core.Lift function arguments) (work (core.Lift function arguments)) left.old left.new) }
{
    let Some(function) = reduce_part(alloc, function, left)? else {
        return Ok(over(arguments));
    };
    let (first, rest) = first_of(arguments);
    let done = Vec::new(alloc);
    let frame = Frame::Arguments {
        function,
        done,
        rest,
    };
    Ok(Move::Into(frame, first))
}

fn enter_foldp(
    alloc: Global,
    function: Term,
    base: Term,
    signal: Term,
    left: &mut u64,
) -> Result<Move, Memory>
    requires { IsTypedPart (core.Foldp function base signal) }
    ensures { IfOk result (IsMove (core.Foldp function base signal) (work (core.Foldp function base signal)) left.old left.new) }
{
    let Some(function) = reduce_part(alloc, function, left)? else {
        return Ok(over((base, signal)));
    };
    let Some(base) = reduce_part(alloc, base, left)? else {
        return Ok(over((function, signal)));
    };
    Ok(Move::Into(Frame::Foldp { function, base }, signal))
}

fn number_of(value: Term) -> i64
    requires { (n : ℤ) × (value ≡ core.Int n) }
    ensures { value ≡ core.Int result }
{
    match value.form {
        TermForm::Int(number) => number,
        _ => unreachable!(),
    }
}

fn first_of(terms: Terms) -> (Term, Terms)
    requires { (t : core.CoreTerm) × (ts : core.CoreTerms) × (terms ≡ core.More t ts) }
    ensures { terms ≡ core.More result.0 result.1 }
{
    match terms.form {
        TermsForm::More { first, rest } => (first, Box::into_inner(rest)),
        TermsForm::End => unreachable!(),
    }
}
