//! The core term and the type of an expression, or its first fault.
ghost use Rattle.std.specs.Prelude.{◌≡◌, ◌+◌, ◌<◌, ◌^◌, Ok, Some, IfOk, IfErr, length};
ghost use Rattle.felm_term.specs.Inputs.{names_of};
ghost use Rattle.felm_syntax.specs.Binders.{binders, binders_of_all};
ghost use Rattle.felm_types.specs.Binder.{names};
ghost use Rattle.felm_types.specs.Scope.{binders_in};
ghost use Rattle.felm_types.specs.CoreTermOf.{core_term, core_terms};
ghost use Rattle.felm_types.specs.Judgement.{judge, judge_all, IsFaultOf};
ghost use Rattle.felm_types.specs.Lift.{left_by};

use crate::fault::TypeFault;
use crate::lift::{Taken, left_after, lift, simple};
use crate::names::name;
use crate::scope::Scope;
use crate::whole::{Typed, application, asynchronous, binding, choice, foldp, function, operation};
use felm_syntax::{Expr, Exprs, ExprsForm, Form, InputMap};
use felm_term::{TermForm, Terms, TermsForm, Ty, TyForm, boxed};
use std::alloc::Global;

/// The core term and the type of an expression, or its first fault.
#[cycle(judge)]
pub fn judge(
    alloc: Global,
    expr: &Expr,
    scope: &Scope,
    inputs: &InputMap,
) -> Result<Typed, TypeFault>
    requires binders { length (binders_in scope.now) + binders expr.now < 2 ^ 31 }
    requires inputs { length inputs.now < 2 ^ 31 }
    ensures ty { IfOk result (λ typed. judge inputs.now (binders_in scope.now) expr.now ≡ Ok typed.ty) }
    ensures term { IfOk result (λ typed.
        core_term (names_of inputs.now) (names (binders_in scope.now)) expr.now ≡ Some typed.term.value) }
    ensures fault { IfErr result (IsFaultOf (judge inputs.now (binders_in scope.now) expr.now)) }
{
    let at = expr.at;
    match &expr.form {
        Form::Unit => Ok(Typed::make(alloc, TermForm::Unit, Ty { form: TyForm::Unit })?),
        Form::Int(number) => Ok(Typed::make(
            alloc,
            TermForm::Int(*number),
            Ty { form: TyForm::Int },
        )?),
        Form::Name(text) => name(alloc, at, text, scope, inputs),
        Form::Lam { name, param, body } => {
            if !param.ty.is_well_formed() {
                return Err(TypeFault::IllFormed { at: param.at });
            }
            let inner = Scope::Under {
                name: &*name,
                ty: &param.ty,
                outer: &*scope,
            };
            let body = judge(alloc, body, &inner, inputs)?;
            function(alloc, at, &param.ty, body)
        }
        Form::App { function, argument } => {
            let function = judge(alloc, function, scope, inputs)?;
            let argument = judge(alloc, argument, scope, inputs)?;
            application(alloc, at, function, argument)
        }
        Form::Bin { op, left, right } => {
            let left = judge(alloc, left, scope, inputs)?;
            let right = judge(alloc, right, scope, inputs)?;
            operation(alloc, at, *op, left, right)
        }
        Form::If { condition, yes, no } => {
            let condition = judge(alloc, condition, scope, inputs)?;
            let yes = judge(alloc, yes, scope, inputs)?;
            let no = judge(alloc, no, scope, inputs)?;
            choice(alloc, at, condition, yes, no)
        }
        Form::Let { name, bound, body } => {
            let bound = judge(alloc, bound, scope, inputs)?;
            let inner = Scope::Under {
                name: &*name,
                ty: &bound.ty,
                outer: &*scope,
            };
            let body = judge(alloc, body, &inner, inputs)?;
            binding(alloc, at, bound, body)
        }
        Form::Lift {
            function,
            arguments,
        } => {
            let function = judge(alloc, function, scope, inputs)?;
            let left = simple(function.ty);
            let taken = judge_all(alloc, left, arguments, scope, inputs)?;
            lift(alloc, at, function.term, taken)
        }
        Form::Foldp {
            function,
            base,
            signal,
        } => {
            let function = judge(alloc, function, scope, inputs)?;
            let base = judge(alloc, base, scope, inputs)?;
            let signal = judge(alloc, signal, scope, inputs)?;
            foldp(alloc, at, function, base, signal)
        }
        Form::Async { signal } => {
            let signal = judge(alloc, signal, scope, inputs)?;
            asynchronous(alloc, at, signal)
        }
    }
}

// The arguments of a lift, whose function has what is left of its type before them.
#[cycle(judge)]
fn judge_all(
    alloc: Global,
    left: Option<Ty>,
    exprs: &Exprs,
    scope: &Scope,
    inputs: &InputMap,
) -> Result<Taken, TypeFault>
    requires binders { length (binders_in scope.now) + binders_of_all exprs.now < 2 ^ 31 }
    requires inputs { length inputs.now < 2 ^ 31 }
    ensures left { IfOk result (λ taken.
        left_by left (judge_all inputs.now (binders_in scope.now) exprs.now) ≡ Ok taken.left) }
    ensures terms { IfOk result (λ taken.
        core_terms (names_of inputs.now) (names (binders_in scope.now)) exprs.now ≡ Some taken.terms.value) }
    ensures fault { IfErr result (IsFaultOf (judge_all inputs.now (binders_in scope.now) exprs.now)) }
{
    match &exprs.form {
        ExprsForm::End => {
            let form = TermsForm::End;
            let terms = boxed(alloc, Terms { form })?;
            Ok(Taken { terms, left })
        }
        ExprsForm::More { first, rest } => {
            let first = judge(alloc, first, scope, inputs)?;
            let left = left_after(left, &first.ty);
            let taken = judge_all(alloc, left, rest, scope, inputs)?;
            let form = TermsForm::More {
                first: Box::into_inner(first.term),
                rest: taken.terms,
            };
            let terms = boxed(alloc, Terms { form })?;
            Ok(Taken {
                terms,
                left: taken.left,
            })
        }
    }
}
