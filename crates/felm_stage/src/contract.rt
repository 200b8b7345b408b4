ghost use Rattle.std.specs.Prelude.{◌≡◌, ◌<◌, ◌^◌, length, OnOk, IfOk, if◌then◌else◌};
ghost use Rattle.felm_term.specs.Operators.{is_zero};
ghost use Rattle.felm_stage.specs.Redex.{contractum, shared_after};

use felm_term::{Items, Memory, Term, TermForm, Ty, boxed, substitute_term};
use std::alloc::Global;

/// A term to which a rule applies as it stands.
#[derive(Drop)]
pub enum Redex {
    Conditional {
        number: i64,
        yes: Term,
        no: Term,
    },
    Application {
        param: Ty,
        body: Term,
        argument: Term,
    },
    /// A let of a value.
    Let {
        value: Term,
        body: Term,
    },
    /// A let of a signal term.
    Share {
        signal: Term,
        body: Term,
    },
}

/// What the rule makes of it, beside the shared signals, to which it may add one.
pub fn contract(alloc: Global, shared: &mut Items<Term>, redex: Redex) -> Result<Term, Memory>
    requires { length shared.old.items < 2 ^ 32 }
    ensures term { IfOk result (λ term. term ≡ contractum shared.old.items redex) }
    ensures shared { OnOk result (shared.new.items ≡ shared_after shared.old.items redex) }
{
    match redex {
        Redex::Conditional { number, yes, no } => Ok(branch(number, yes, no)),
        Redex::Application {
            param,
            body,
            argument,
        } => {
            discard(param);
            let bound = boxed(alloc, argument)?;
            let body = boxed(alloc, body)?;
            Ok(Term {
                form: TermForm::Let { bound, body },
            })
        }
        Redex::Let { value, body } => substitute_term(alloc, body, &value),
        Redex::Share { signal, body } => {
            let name = Term {
                form: TermForm::Node(shared.len() as u32),
            };
            shared.push(signal)?;
            substitute_term(alloc, body, &name)
        }
    }
}

// Only the number 0 counts as false.
fn branch(number: i64, yes: Term, no: Term) -> Term
    ensures { result ≡ (if is_zero number then no else yes) }
{
    if number == 0 { no } else { yes }
}

fn discard(_: Ty) {}
