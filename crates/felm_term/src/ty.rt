ghost use Rattle.std.specs.Prelude.{◌≡◌, IfOk, IsTrue, ◌↔◌};
ghost use Rattle.felm_term.specs.CoreType.{is_simple, is_signal, is_well_formed, is_simple_signal};
ghost use Rattle.felm_term.specs.TypeView.{type_of_form};

use crate::memory::{Memory, boxed};
use std::alloc::Global;
use std::marker::Model;

/// A type, which contracts see as a `CoreType`. It may be outside both layers.
#[cycle(ty)]
#[derive(Debug, Drop)]
pub struct Ty {
    pub form: TyForm,
}

/// The forms of a type.
#[cycle(ty)]
#[derive(Debug, Drop)]
pub enum TyForm {
    Unit,
    Int,
    Arrow { from: Box<Ty>, to: Box<Ty> },
    Signal(Box<Ty>),
}

impl Model for Ty {
    ghost use Rattle.felm_term.specs.CoreType.{CoreType, depth};
    ghost use Rattle.felm_term.specs.Codes.{coded_type};

    ghost Value = { CoreType };

    ghost coded = { coded_type };

    ghost use Rattle.felm_term.specs.TypeView.{type_of_form};

    ghost view = { λ a. type_of_form a.form };

    ghost size = { depth };

    ghost use Rattle.felm_term.specs.TypeFalls.{falls};

    ghost size_decreases = { λ a h. falls a.form };
}

impl Ty {
    /// An equal type.
    #[cycle(copy_ty)]
    pub fn copy(&self, alloc: Global) -> Result<Ty, Memory>
        ensures { IfOk result (λ copy. copy ≡ self.now) }
    {
        Ok(Ty {
            form: self.form.copy(alloc)?,
        })
    }

    /// Unit, int, or a function between simple types.
    pub fn is_simple(&self) -> bool
        ensures { result ≡ is_simple self.now }
    {
        match &self.form {
            TyForm::Unit => true,
            TyForm::Int => true,
            TyForm::Arrow { from, to } => from.is_simple() && to.is_simple(),
            TyForm::Signal(_) => false,
        }
    }

    /// A signal of a simple type, or a function from either layer to a signal type.
    #[cycle(layers)]
    pub fn is_signal(&self) -> bool
        ensures { result ≡ is_signal self.now }
    {
        match &self.form {
            TyForm::Unit => false,
            TyForm::Int => false,
            TyForm::Arrow { from, to } => from.is_well_formed() && to.is_signal(),
            TyForm::Signal(of) => of.is_simple(),
        }
    }

    /// A type of one of the two layers.
    #[cycle(layers)]
    pub fn is_well_formed(&self) -> bool
        ensures { result ≡ is_well_formed self.now }
    {
        self.is_simple() || self.is_signal()
    }

    /// The signal of a simple type, as inputs and shared signals are.
    pub fn is_simple_signal(&self) -> bool
        ensures { result ≡ is_simple_signal self.now }
    {
        if let TyForm::Signal(of) = &self.form {
            of.is_simple()
        } else {
            false
        }
    }
}

impl TyForm {
    #[cycle(copy_ty)]
    fn copy(&self, alloc: Global) -> Result<TyForm, Memory>
        ensures { IfOk result (λ copy. type_of_form copy ≡ type_of_form self.now) }
    {
        match self {
            TyForm::Unit => Ok(TyForm::Unit),
            TyForm::Int => Ok(TyForm::Int),
            TyForm::Arrow { from, to } => Ok(TyForm::Arrow {
                from: boxed(alloc, from.copy(alloc)?)?,
                to: boxed(alloc, to.copy(alloc)?)?,
            }),
            TyForm::Signal(of) => Ok(TyForm::Signal(boxed(alloc, of.copy(alloc)?)?)),
        }
    }
}

/// Whether two types are equal.
pub fn same_ty(left: &Ty, right: &Ty) -> bool
    ensures { IsTrue result ↔ (left.now ≡ right.now) }
{
    match (&left.form, &right.form) {
        (TyForm::Unit, TyForm::Unit) => true,
        (TyForm::Int, TyForm::Int) => true,
        (
            TyForm::Arrow { from, to },
            TyForm::Arrow {
                from: other_from,
                to: other_to,
            },
        ) => { same_ty(from, other_from) && same_ty(to, other_to) }
        (TyForm::Signal(of), TyForm::Signal(other)) => same_ty(of, other),
        _ => false,
    }
}
