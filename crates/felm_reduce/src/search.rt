ghost use Rattle.std.specs.Prelude.{◌≡◌, ◌≤◌, ◌+◌, [], OnOk, IfOk};
ghost use Rattle.felm_term.specs.CoreTerm as core;
ghost use Rattle.felm_term.specs.CoreType.{CoreType, Arrow, Int};
ghost use Rattle.felm_term.specs.Typing.{HasSimpleType, HasType};
ghost use Rattle.felm_reduce.specs.Frames.{plug, weight, work};
ghost use Rattle.felm_reduce.specs.Search.{head_term, IsValueOf, Leads, Finds};

use crate::contract::Redex;
use crate::frame::{Frame, innermost, put};
use felm_term::{Function, Memory, Term, TermForm, Ty, Value, boxed};
use std::alloc::Global;

/// A value at the place of the next step. A function is still in its parts.
#[derive(Drop)]
pub enum Head {
    Unit,
    Int(i64),
    Lam { param: Ty, body: Term },
}

/// What is above a value: a redex, another place to look at, or nothing.
#[derive(Drop)]
pub enum Ascent {
    Ready(Redex),
    Again(Term),
    Done(Value),
}

/// What a search comes to: a redex, or a value, which has none.
#[derive(Drop)]
pub enum Found {
    Ready(Redex),
    Done(Value),
}

/// The next redex in a term and its frames, which become those around the redex; or the value that the whole is.
pub fn seek(alloc: Global, frames: &mut Vec<Frame>, term: Term) -> Result<Found, Memory>
    requires { HasSimpleType (plug frames.old.items term) }
    ensures { IfOk result (Finds frames.old.items term frames.new.items) }
{
    let mut focus = term;
    'on: loop {
        let head = descend(frames, focus)?;
        match ascend(alloc, frames, head)? {
            Ascent::Ready(redex) => return Ok(Found::Ready(redex)),
            Ascent::Done(value) => return Ok(Found::Done(value)),
            Ascent::Again(next) => focus = next,
        }
    }
}

// Goes down to a value, and leaves a frame for each term that it passes.
#[tactic(auto, using(crate::proofs::Frames::frames))]
fn descend(frames: &mut Vec<Frame>, term: Term) -> Result<Head, Memory>
    requires { HasSimpleType (plug frames.old.items term) }
    ensures same { IfOk result (λ head. plug frames.new.items (head_term head) ≡ plug frames.old.items term) }
    ensures less { OnOk result (weight frames.new.items + 1 ≤ weight frames.old.items + work term) }
{
    let mut focus = term;
    'down: loop {
        match focus.form {
            TermForm::Unit => return Ok(Head::Unit),
            TermForm::Int(number) => return Ok(Head::Int(number)),
            TermForm::Lam { param, body } => return Ok(Head::Lam {
                param,
                body: Box::into_inner(body),
            }),
            TermForm::App { function, argument } => {
                put(frames, Frame::Argument(Box::into_inner(argument)))?;
                focus = Box::into_inner(function);
            }
            TermForm::Bin { op, left, right } => {
                let right = Box::into_inner(right);
                put(frames, Frame::RightOperand { op, right })?;
                focus = Box::into_inner(left);
            }
            TermForm::If { condition, yes, no } => {
                let yes = Box::into_inner(yes);
                let no = Box::into_inner(no);
                put(frames, Frame::Branches { yes, no })?;
                focus = Box::into_inner(condition);
            }
            TermForm::Let { bound, body } => {
                put(frames, Frame::Body(Box::into_inner(body)))?;
                focus = Box::into_inner(bound);
            }
            _ => unreachable!(),
        }
    }
}

// Goes up from a value to the term around it.
fn ascend(alloc: Global, frames: &mut Vec<Frame>, head: Head) -> Result<Ascent, Memory>
    requires { HasSimpleType (plug frames.old.items (head_term head)) }
    ensures { IfOk result (Leads frames.old.items (head_term head) frames.new.items) }
{
    match innermost(frames) {
        None => {
            let value = value_of(alloc, head)?;
            Ok(Ascent::Done(value))
        }
        Some(Frame::Argument(argument)) => {
            let (param, body) = function_of(head);
            Ok(Ascent::Ready(Redex::Application {
                param,
                body,
                argument,
            }))
        }
        Some(Frame::RightOperand { op, right }) => {
            let left = number_of(head);
            put(frames, Frame::LeftOperand { op, left })?;
            Ok(Ascent::Again(right))
        }
        Some(Frame::LeftOperand { op, left }) => {
            let right = number_of(head);
            Ok(Ascent::Ready(Redex::Operation { op, left, right }))
        }
        Some(Frame::Branches { yes, no }) => {
            let number = number_of(head);
            Ok(Ascent::Ready(Redex::Conditional { number, yes, no }))
        }
        Some(Frame::Body(body)) => {
            let value = value_of(alloc, head)?;
            Ok(Ascent::Ready(Redex::Let { value, body }))
        }
    }
}

fn number_of(head: Head) -> i64
    requires { HasType [] [] [] (head_term head) Int }
    ensures { head_term head ≡ core.Int result }
{
    match head {
        Head::Int(number) => number,
        _ => unreachable!(),
    }
}

fn function_of(head: Head) -> (Ty, Term)
    requires { (p : CoreType) × (r : CoreType) × HasType [] [] [] (head_term head) (Arrow p r) }
    ensures { head_term head ≡ core.Lam result.0 result.1 }
{
    match head {
        Head::Lam { param, body } => (param, body),
        _ => unreachable!(),
    }
}

fn value_of(alloc: Global, head: Head) -> Result<Value, Memory>
    requires { HasSimpleType (head_term head) }
    ensures { IfOk result (IsValueOf (head_term head)) }
{
    match head {
        Head::Unit => Ok(Value::Unit),
        Head::Int(number) => Ok(Value::Int(number)),
        Head::Lam { param, body } => {
            let body = boxed(alloc, body)?;
            let form = TermForm::Lam { param, body };
            Ok(Value::Fun(Function::make(alloc, Term { form })?))
        }
    }
}
