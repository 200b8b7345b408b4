//! What names stand for.
ghost use Rattle.std.specs.Prelude.{◌≡◌, ◌<◌, ◌^◌, Ok, Some, IfOk, IfErr, IfSome, length, position, bytes_eq, slice_get};
ghost use Rattle.std.specs.Option.{option_map};
ghost use Rattle.felm_term.specs.CoreType.{Signal};
ghost use Rattle.felm_term.specs.Inputs.{names_of, signal_types, values_type};
ghost use Rattle.felm_types.specs.Binder.{names};
ghost use Rattle.felm_types.specs.Scope.{binders_in};
ghost use Rattle.felm_types.specs.CoreTermOf.{named};
ghost use Rattle.felm_types.specs.Judgement.{judge_name, IsFaultOf};

use crate::fault::TypeFault;
use crate::scope::Scope;
use crate::whole::Typed;
use felm_syntax::InputMap;
use felm_term::{InputTy, Memory, Name, TermForm, Ty, TyForm, boxed};
use std::alloc::Global;

/// An input that a name stands for.
#[derive(Drop)]
struct Declared {
    /// Its place among the declared inputs, counted from 0.
    number: u32,
    ty: InputTy,
}

/// The core term and the type of what a name stands for.
pub fn name(
    alloc: Global,
    at: usize,
    name: &Name,
    scope: &Scope,
    inputs: &InputMap,
) -> Result<Typed, TypeFault>
    requires binders { length (binders_in scope.now) < 2 ^ 31 }
    requires inputs { length inputs.now < 2 ^ 31 }
    ensures ty { IfOk result (λ typed.
        judge_name inputs.now (binders_in scope.now) name.now at ≡ Ok typed.ty) }
    ensures term { IfOk result (λ typed.
        named (names_of inputs.now) (names (binders_in scope.now)) name.now ≡ Some typed.term.value) }
    ensures fault { IfErr result (IsFaultOf (judge_name inputs.now (binders_in scope.now) name.now at)) }
{
    if let Some(binder) = scope.find(name) {
        let form = TermForm::Var(binder.binders);
        return Ok(Typed::make(alloc, form, binder.ty.copy(alloc)?)?);
    }
    let Some(input) = input_of(inputs, name) else {
        return Err(TypeFault::Unknown { at });
    };
    let form = TermForm::Input(input.number);
    Ok(Typed::make(alloc, form, signal_of(alloc, input.ty)?)?)
}

fn input_of(inputs: &InputMap, name: &Name) -> Option<Declared>
    requires { length inputs.now < 2 ^ 31 }
    ensures number { option_map (λ found. found.number) result
        ≡ position (bytes_eq name.now) (names_of inputs.now) }
    ensures ty { IfSome result (λ found.
        slice_get (signal_types inputs.now) found.number ≡ Some (Signal (values_type found.ty))) }
{
    let number = inputs.find(name.as_str())?;
    let (_, declared) = inputs.at(number)?;
    Some(Declared {
        number: number as u32,
        ty: declared.ty,
    })
}

fn signal_of(alloc: Global, ty: InputTy) -> Result<Ty, Memory>
    ensures { IfOk result (λ signal. signal ≡ Signal (values_type ty)) }
{
    let form = match ty {
        InputTy::Int => TyForm::Int,
        InputTy::Unit => TyForm::Unit,
    };
    Ok(Ty {
        form: TyForm::Signal(boxed(alloc, Ty { form })?),
    })
}
