//! The rows of the typing table: the type of a whole by the types of its parts, where it has one.
ghost use Rattle.std.specs.Prelude.{◌≡◌, IfOk};
ghost use Rattle.felm_term.specs.FoundType.{when, same_type, function_type, result_type, operation_type, branch_type, let_type, rest_type, is_int, is_signal_of, keeps, folds, foldp_type, async_type, is_count_within, is_liftable};

use crate::memory::{Memory, boxed};
use crate::term::{Terms, TermsForm};
use crate::ty::{Ty, TyForm, same_ty};
use std::alloc::Global;

fn is_same(left: &Ty, right: &Ty) -> bool
    ensures { result ≡ same_type left.now right.now }
{
    same_ty(left, right)
}

fn is_int(ty: &Ty) -> bool
    ensures { result ≡ is_int ty.now }
{
    matches!(&ty.form, TyForm::Int)
}

fn when(holds: bool, ty: Ty) -> Option<Ty>
    ensures { result ≡ when holds ty }
{
    if holds { Some(ty) } else { None }
}

/// The type of a function, by its annotation and its body's type.
pub fn function_type(alloc: Global, param: &Ty, body: Ty) -> Result<Option<Ty>, Memory>
    ensures { IfOk result (λ found. found ≡ function_type param.now body) }
{
    let from = boxed(alloc, param.copy(alloc)?)?;
    let to = boxed(alloc, body)?;
    let function = Ty {
        form: TyForm::Arrow { from, to },
    };
    let holds = param.is_well_formed() && function.is_well_formed();
    Ok(when(holds, function))
}

/// The type of an application, by its function's and its argument's types.
pub fn result_type(function: Ty, argument: &Ty) -> Option<Ty>
    ensures { result ≡ result_type function argument.now }
{
    match function.form {
        TyForm::Arrow { from, to } => when(is_same(&from, argument), Box::into_inner(to)),
        _ => None,
    }
}

/// The type of an operation, by its operands' types.
pub fn operation_type(left: &Ty, right: &Ty) -> Option<Ty>
    ensures { result ≡ operation_type left.now right.now }
{
    when(is_int(left) && is_int(right), Ty { form: TyForm::Int })
}

/// The type of a conditional, by its condition's and its branches' types.
pub fn branch_type(condition: &Ty, yes: Ty, no: &Ty) -> Option<Ty>
    ensures { result ≡ branch_type condition.now yes no.now }
{
    when(is_int(condition) && is_same(&yes, no), yes)
}

/// The type of a let, by the types of what it binds and of its body.
pub fn let_type(bound: &Ty, body: Ty) -> Option<Ty>
    ensures { result ≡ let_type bound.now body }
{
    when(!(bound.is_signal() && !body.is_signal()), body)
}

fn is_signal_of(signal: &Ty, values: &Ty) -> bool
    ensures { result ≡ is_signal_of signal.now values.now }
{
    match &signal.form {
        TyForm::Signal(of) => is_same(values, of),
        _ => false,
    }
}

/// What is left of a lifted function's type once it has taken the values of a signal.
pub fn rest_type(function: Ty, signal: &Ty) -> Option<Ty>
    ensures { result ≡ rest_type function signal.now }
{
    match function.form {
        TyForm::Arrow { from, to } => when(is_signal_of(signal, &from), Box::into_inner(to)),
        _ => None,
    }
}

fn keeps(function: &Ty, values: &Ty) -> bool
    ensures { result ≡ keeps function.now values.now }
{
    match &function.form {
        TyForm::Arrow { from, to } => is_same(from, values) && is_same(to, values),
        _ => false,
    }
}

fn folds(function: &Ty, base: &Ty, signal: &Ty) -> bool
    ensures { result ≡ folds function.now base.now signal.now }
{
    match &function.form {
        TyForm::Arrow { from, to } => is_signal_of(signal, from) && keeps(to, base),
        _ => false,
    }
}

/// The type of a foldp, by its function's, its base's and its signal's types.
pub fn foldp_type(alloc: Global, function: &Ty, base: Ty, signal: &Ty) -> Result<Option<Ty>, Memory>
    ensures { IfOk result (λ found. found ≡ foldp_type function.now base signal.now) }
{
    let holds = function.is_simple() && folds(function, &base, signal);
    let folded = Ty {
        form: TyForm::Signal(boxed(alloc, base)?),
    };
    Ok(when(holds, folded))
}

/// The type of an async, by its signal's type.
pub fn async_type(signal: Ty) -> Option<Ty>
    ensures { result ≡ async_type signal }
{
    when(signal.is_simple_signal(), signal)
}

/// Whether a lift may have these arguments: one to nine.
pub fn is_liftable(terms: &Terms) -> bool
    ensures { result ≡ is_liftable terms.now }
{
    match &terms.form {
        TermsForm::End => false,
        TermsForm::More { rest, .. } => is_count_within(8, rest),
    }
}

fn is_count_within(most: u32, terms: &Terms) -> bool
    ensures { result ≡ is_count_within most terms.now }
{
    match &terms.form {
        TermsForm::End => true,
        TermsForm::More { rest, .. } => most > 0 && is_count_within(most - 1, rest),
    }
}
