//! Wholes from their parts: the core term, and the type by the row of the table or `Untyped`.
ghost use Rattle.std.specs.Prelude.{◌≡◌, Ok, IfOk, IfErr};
ghost use Rattle.felm_term.specs.CoreTerm as core;
ghost use Rattle.felm_term.specs.FoundType.{function_type, result_type, operation_type, branch_type, let_type, foldp_type, async_type};
ghost use Rattle.felm_term.specs.TermView.{term_of_form};
ghost use Rattle.felm_types.specs.Judgement.{row, IsFaultOf};

use crate::fault::TypeFault;
use felm_term::rows::{
    async_type, branch_type, foldp_type, function_type, let_type, operation_type, result_type,
};
use felm_term::{Memory, Op, Term, TermForm, Ty, boxed};
use std::alloc::Global;

/// The core term of an expression, and its type.
#[derive(Drop)]
pub struct Typed {
    pub term: Box<Term>,
    pub ty: Ty,
}

impl Typed {
    /// The term of this form, with its type.
    pub fn make(alloc: Global, form: TermForm, ty: Ty) -> Result<Typed, Memory>
        ensures term { IfOk result (λ typed. typed.term.value ≡ term_of_form form) }
        ensures ty { IfOk result (λ typed. typed.ty ≡ ty) }
    {
        Ok(Typed {
            term: boxed(alloc, Term { form })?,
            ty,
        })
    }
}

/// The type that a row gives, or else `Untyped` at the whole.
pub fn row(at: usize, found: Option<Ty>) -> Result<Ty, TypeFault>
    ensures { result ≡ row at found }
{
    match found {
        Some(ty) => Ok(ty),
        None => Err(TypeFault::Untyped { at }),
    }
}

pub fn function(alloc: Global, at: usize, param: &Ty, body: Typed) -> Result<Typed, TypeFault>
    ensures ty { IfOk result (λ whole. row at (function_type param.now body.ty) ≡ Ok whole.ty) }
    ensures term { IfOk result (λ whole. whole.term.value ≡ core.Lam param.now body.term.value) }
    ensures fault { IfErr result (IsFaultOf (row at (function_type param.now body.ty))) }
{
    let ty = row(at, function_type(alloc, param, body.ty)?)?;
    let form = TermForm::Lam {
        param: param.copy(alloc)?,
        body: body.term,
    };
    Ok(Typed::make(alloc, form, ty)?)
}

pub fn application(
    alloc: Global,
    at: usize,
    function: Typed,
    argument: Typed,
) -> Result<Typed, TypeFault>
    ensures ty { IfOk result (λ whole. row at (result_type function.ty argument.ty) ≡ Ok whole.ty) }
    ensures term { IfOk result (λ whole.
        whole.term.value ≡ core.App function.term.value argument.term.value) }
    ensures fault { IfErr result (IsFaultOf (row at (result_type function.ty argument.ty))) }
{
    let ty = row(at, result_type(function.ty, &argument.ty))?;
    let form = TermForm::App {
        function: function.term,
        argument: argument.term,
    };
    Ok(Typed::make(alloc, form, ty)?)
}

pub fn operation(
    alloc: Global,
    at: usize,
    op: Op,
    left: Typed,
    right: Typed,
) -> Result<Typed, TypeFault>
    ensures ty { IfOk result (λ whole. row at (operation_type left.ty right.ty) ≡ Ok whole.ty) }
    ensures term { IfOk result (λ whole. whole.term.value ≡ core.Bin op left.term.value right.term.value) }
    ensures fault { IfErr result (IsFaultOf (row at (operation_type left.ty right.ty))) }
{
    let ty = row(at, operation_type(&left.ty, &right.ty))?;
    let form = TermForm::Bin {
        op,
        left: left.term,
        right: right.term,
    };
    Ok(Typed::make(alloc, form, ty)?)
}

pub fn choice(
    alloc: Global,
    at: usize,
    condition: Typed,
    yes: Typed,
    no: Typed,
) -> Result<Typed, TypeFault>
    ensures ty { IfOk result (λ whole. row at (branch_type condition.ty yes.ty no.ty) ≡ Ok whole.ty) }
    ensures term { IfOk result (λ whole.
        whole.term.value ≡ core.If condition.term.value yes.term.value no.term.value) }
    ensures fault { IfErr result (IsFaultOf (row at (branch_type condition.ty yes.ty no.ty))) }
{
    let ty = row(at, branch_type(&condition.ty, yes.ty, &no.ty))?;
    let form = TermForm::If {
        condition: condition.term,
        yes: yes.term,
        no: no.term,
    };
    Ok(Typed::make(alloc, form, ty)?)
}

pub fn binding(alloc: Global, at: usize, bound: Typed, body: Typed) -> Result<Typed, TypeFault>
    ensures ty { IfOk result (λ whole. row at (let_type bound.ty body.ty) ≡ Ok whole.ty) }
    ensures term { IfOk result (λ whole. whole.term.value ≡ core.Let bound.term.value body.term.value) }
    ensures fault { IfErr result (IsFaultOf (row at (let_type bound.ty body.ty))) }
{
    let ty = row(at, let_type(&bound.ty, body.ty))?;
    let form = TermForm::Let {
        bound: bound.term,
        body: body.term,
    };
    Ok(Typed::make(alloc, form, ty)?)
}

pub fn foldp(
    alloc: Global,
    at: usize,
    function: Typed,
    base: Typed,
    signal: Typed,
) -> Result<Typed, TypeFault>
    ensures ty { IfOk result (λ whole. row at (foldp_type function.ty base.ty signal.ty) ≡ Ok whole.ty) }
    ensures term { IfOk result (λ whole.
        whole.term.value ≡ core.Foldp function.term.value base.term.value signal.term.value) }
    ensures fault { IfErr result (IsFaultOf (row at (foldp_type function.ty base.ty signal.ty))) }
{
    let ty = row(at, foldp_type(alloc, &function.ty, base.ty, &signal.ty)?)?;
    let form = TermForm::Foldp {
        function: function.term,
        base: base.term,
        signal: signal.term,
    };
    Ok(Typed::make(alloc, form, ty)?)
}

pub fn asynchronous(alloc: Global, at: usize, signal: Typed) -> Result<Typed, TypeFault>
    ensures ty { IfOk result (λ whole. row at (async_type signal.ty) ≡ Ok whole.ty) }
    ensures term { IfOk result (λ whole. whole.term.value ≡ core.Async signal.term.value) }
    ensures fault { IfErr result (IsFaultOf (row at (async_type signal.ty))) }
{
    let ty = row(at, async_type(signal.ty))?;
    let form = TermForm::Async {
        signal: signal.term,
    };
    Ok(Typed::make(alloc, form, ty)?)
}
