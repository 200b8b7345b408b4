ghost use Rattle.std.specs.Prelude.{◌≡◌, IfOk, if◌then◌else◌};
ghost use Rattle.felm_term.specs.Operators.{is_zero};
ghost use Rattle.felm_reduce.specs.Redex.{contractum};

use felm_term::{Memory, Op, Term, TermForm, Ty, Value, apply_op, boxed, substitute};
use std::alloc::Global;

/// A term to which a rule applies as it stands.
#[derive(Drop)]
pub enum Redex {
    Operation {
        op: Op,
        left: i64,
        right: i64,
    },
    Conditional {
        number: i64,
        yes: Term,
        no: Term,
    },
    Application {
        param: Ty,
        body: Term,
        argument: Term,
    },
    Let {
        value: Value,
        body: Term,
    },
}

/// What the rule makes of it.
pub fn contract(alloc: Global, redex: Redex) -> Result<Term, Memory>
    ensures { IfOk result (λ term. term ≡ contractum redex) }
{
    match redex {
        Redex::Operation { op, left, right } => Ok(Term {
            form: TermForm::Int(apply_op(op, left, right)),
        }),
        Redex::Conditional { number, yes, no } => Ok(branch(number, yes, no)),
        Redex::Application {
            param,
            body,
            argument,
        } => {
            discard(param);
            let bound = boxed(alloc, argument)?;
            let body = boxed(alloc, body)?;
            Ok(Term {
                form: TermForm::Let { bound, body },
            })
        }
        Redex::Let { value, body } => substitute(alloc, body, &value),
    }
}

// Only the number 0 counts as false.
fn branch(number: i64, yes: Term, no: Term) -> Term
    ensures { result ≡ (if is_zero number then no else yes) }
{
    if number == 0 { no } else { yes }
}

fn discard(_: Ty) {}
