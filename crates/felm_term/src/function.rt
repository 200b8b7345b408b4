ghost use Rattle.std.specs.Prelude.{◌≡◌, IfOk, IsTrue, ◌↔◌};
ghost use Rattle.felm_term.specs.Typing.{IsFunction};

use crate::memory::Memory;
use crate::term::{Term, same_term};
use std::alloc::Global;
use std::marker::Model;
use std::sync::Arc;

/// A function, which contracts see as its term: a closed `Lam` of a simple type.
///
/// Its copies share the term, also among threads.
#[derive(Debug, Drop)]
pub struct Function {
    term: Arc<Term>,
}

impl Model for Function {
    ghost use Rattle.std.specs.Arc.{arc_value};
    ghost use Rattle.felm_term.specs.CoreTerm.{CoreTerm};
    ghost use Rattle.felm_term.specs.Codes.{coded_term};

    ghost Value = { CoreTerm };

    ghost coded = { coded_term };

    ghost use Rattle.felm_term.specs.Typing.{IsFunction};

    ghost view = { λ a. arc_value a.term };

    ghost invariant = { λ a. IsFunction (arc_value a.term) };
}

impl Function {
    /// A function with this term.
    pub fn make(alloc: Global, term: Term) -> Result<Function, Memory>
        requires { IsFunction term }
        ensures { IfOk result (λ function. function ≡ term) }
    {
        match Arc::new(alloc, term) {
            Ok(term) => Ok(Function { term }),
            Err(_) => Err(Memory),
        }
    }

    /// A copy, which shares the term.
    pub fn copy(&self) -> Result<Function, Memory>
        ensures { IfOk result (λ copy. copy ≡ self.now) }
    {
        match Arc::try_clone(&self.term) {
            Ok(term) => Ok(Function { term }),
            Err(_) => Err(Memory),
        }
    }

    /// Its term, lent.
    pub fn as_term(&self) -> &Term
        ensures term { result.now ≡ self.now }
        ensures function { IsFunction result.now }
    {
        &self.term
    }

    /// A copy of its term.
    pub fn to_term(&self, alloc: Global) -> Result<Term, Memory>
        ensures { IfOk result (λ term. term ≡ self.now) }
    {
        self.as_term().copy(alloc)
    }
}

/// Whether two functions stand for equal terms.
pub fn same_function(left: &Function, right: &Function) -> bool
    ensures { IsTrue result ↔ (left.now ≡ right.now) }
{
    same_term(left.as_term(), right.as_term())
}
