ghost use Rattle.std.specs.Prelude.{◌≡◌, IfOk, slice_get};
ghost use Rattle.std.specs.Option.{option_copied};
ghost use Rattle.felm_term.specs.FoundType.{TypeIs, found_type, lifted_type};
ghost use Rattle.felm_term.specs.Scope.{types_in};

use crate::memory::{Memory, boxed};
use crate::rows::{
    async_type, branch_type, foldp_type, function_type, is_liftable, let_type, operation_type,
    rest_type, result_type,
};
use crate::scope::Scope;
use crate::term::{Term, TermForm, Terms, TermsForm};
use crate::ty::{Ty, TyForm};
use std::alloc::Global;

/// The type that a term has in a scope, under the types of the inputs and of the shared signals.
pub fn type_of(
    alloc: Global,
    term: &Term,
    scope: &Scope,
    inputs: &[Ty],
    shared: &[Ty],
) -> Result<Option<Ty>, Memory>
    ensures { IfOk result (TypeIs inputs.now shared.now (types_in scope.now) term.now) }
{
    found_type(alloc, term, scope, inputs, shared)
}

#[cycle(found_type)]
fn found_type(
    alloc: Global,
    term: &Term,
    scope: &Scope,
    inputs: &[Ty],
    shared: &[Ty],
) -> Result<Option<Ty>, Memory>
    ensures { IfOk result (λ found. found ≡ found_type inputs.now shared.now (types_in scope.now) term.now) }
{
    match &term.form {
        TermForm::Unit => Ok(Some(Ty { form: TyForm::Unit })),
        TermForm::Int(_) => Ok(Some(Ty { form: TyForm::Int })),
        TermForm::Var(binders) => copied(alloc, scope.at(*binders)),
        TermForm::Input(number) => copied(alloc, type_at(inputs, *number)),
        TermForm::Node(number) => copied(alloc, type_at(shared, *number)),
        TermForm::Lam { param, body } => {
            let inner = Scope::Under {
                ty: &*param,
                outer: &*scope,
            };
            match found_type(alloc, body, &inner, inputs, shared)? {
                None => Ok(None),
                Some(body) => function_type(alloc, param, body),
            }
        }
        TermForm::App { function, argument } => {
            let Some(function) = found_type(alloc, function, scope, inputs, shared)? else {
                return Ok(None);
            };
            let Some(argument) = found_type(alloc, argument, scope, inputs, shared)? else {
                return Ok(None);
            };
            Ok(result_type(function, &argument))
        }
        TermForm::Bin { left, right, .. } => {
            let Some(left) = found_type(alloc, left, scope, inputs, shared)? else {
                return Ok(None);
            };
            let Some(right) = found_type(alloc, right, scope, inputs, shared)? else {
                return Ok(None);
            };
            Ok(operation_type(&left, &right))
        }
        TermForm::If { condition, yes, no } => {
            let Some(condition) = found_type(alloc, condition, scope, inputs, shared)? else {
                return Ok(None);
            };
            let Some(yes) = found_type(alloc, yes, scope, inputs, shared)? else {
                return Ok(None);
            };
            let Some(no) = found_type(alloc, no, scope, inputs, shared)? else {
                return Ok(None);
            };
            Ok(branch_type(&condition, yes, &no))
        }
        TermForm::Let { bound, body } => {
            let Some(bound) = found_type(alloc, bound, scope, inputs, shared)? else {
                return Ok(None);
            };
            let inner = Scope::Under {
                ty: &bound,
                outer: &*scope,
            };
            let Some(body) = found_type(alloc, body, &inner, inputs, shared)? else {
                return Ok(None);
            };
            Ok(let_type(&bound, body))
        }
        TermForm::Lift {
            function,
            arguments,
        } => {
            let Some(function) = found_type(alloc, function, scope, inputs, shared)? else {
                return Ok(None);
            };
            if function.is_simple() && is_liftable(arguments) {
                lifted_type(alloc, function, arguments, scope, inputs, shared)
            } else {
                Ok(None)
            }
        }
        TermForm::Foldp {
            function,
            base,
            signal,
        } => {
            let Some(function) = found_type(alloc, function, scope, inputs, shared)? else {
                return Ok(None);
            };
            let Some(base) = found_type(alloc, base, scope, inputs, shared)? else {
                return Ok(None);
            };
            let Some(signal) = found_type(alloc, signal, scope, inputs, shared)? else {
                return Ok(None);
            };
            foldp_type(alloc, &function, base, &signal)
        }
        TermForm::Async { signal } => {
            let Some(signal) = found_type(alloc, signal, scope, inputs, shared)? else {
                return Ok(None);
            };
            Ok(async_type(signal))
        }
    }
}

// The type of a lift, by what is left of its function's type and of its arguments.
#[cycle(found_type)]
fn lifted_type(
    alloc: Global,
    function: Ty,
    arguments: &Terms,
    scope: &Scope,
    inputs: &[Ty],
    shared: &[Ty],
) -> Result<Option<Ty>, Memory>
    ensures { IfOk result (λ found. found ≡ lifted_type inputs.now shared.now (types_in scope.now) function arguments.now) }
{
    match &arguments.form {
        TermsForm::End => Ok(Some(Ty {
            form: TyForm::Signal(boxed(alloc, function)?),
        })),
        TermsForm::More { first, rest } => {
            let Some(signal) = found_type(alloc, first, scope, inputs, shared)? else {
                return Ok(None);
            };
            match rest_type(function, &signal) {
                None => Ok(None),
                Some(function) => lifted_type(alloc, function, rest, scope, inputs, shared),
            }
        }
    }
}

fn copied(alloc: Global, ty: Option<&Ty>) -> Result<Option<Ty>, Memory>
    ensures { IfOk result (λ copy. copy ≡ option_copied ty.entry) }
{
    match ty {
        None => Ok(None),
        Some(ty) => Ok(Some(ty.copy(alloc)?)),
    }
}

fn type_at(types: &[Ty], number: u32) -> Option<&Ty>
    ensures { option_copied result ≡ slice_get types.now number }
{
    types.get(number as usize)
}
