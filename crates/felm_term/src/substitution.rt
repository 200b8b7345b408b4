ghost use Rattle.std.specs.Prelude.{◌≡◌, suc, IfOk};
ghost use Rattle.felm_term.specs.Substitution.{substitute, substitute_at, substitute_all};
ghost use Rattle.felm_term.specs.TermView.{term_of_form};
ghost use Rattle.felm_term.specs.Values.{term_of};

use crate::memory::{Memory, boxed};
use crate::term::{Term, TermForm, Terms, TermsForm};
use crate::value::Value;
use std::alloc::Global;

/// The body of a binder with a value in the place of the binder's variable.
///
/// It is meant for a body that is well typed under this one binder; variables of other binders stay as they are.
pub fn substitute(alloc: Global, body: Term, value: &Value) -> Result<Term, Memory>
    ensures { IfOk result (λ term. term ≡ substitute (term_of value.now) body) }
{
    match value {
        Value::Fun(function) => substitute_term(alloc, body, function.as_term()),
        _ => {
            let term = value.to_term(alloc)?;
            substitute_term(alloc, body, &term)
        }
    }
}

/// The body of a binder with a closed term in the place of the binder's variable.
pub fn substitute_term(alloc: Global, body: Term, closed: &Term) -> Result<Term, Memory>
    ensures { IfOk result (λ term. term ≡ substitute closed.now body) }
{
    substitute_at(alloc, body, 0, closed)
}

#[cycle(substitute)]
fn substitute_at(alloc: Global, term: Term, binders: u64, closed: &Term) -> Result<Term, Memory>
    ensures { IfOk result (λ term'. term' ≡ substitute_at binders closed.now term) }
{
    Ok(Term {
        form: substitute_form(alloc, term.form, binders, closed)?,
    })
}

#[cycle(substitute)]
fn substitute_boxed(
    alloc: Global,
    term: Box<Term>,
    binders: u64,
    closed: &Term,
) -> Result<Box<Term>, Memory>
    ensures { IfOk result (λ boxed. boxed.value ≡ substitute_at binders closed.now term.value) }
{
    let term = Box::into_inner(term);
    boxed(alloc, substitute_at(alloc, term, binders, closed)?)
}

#[cycle(substitute)]
fn substitute_form(
    alloc: Global,
    form: TermForm,
    binders: u64,
    closed: &Term,
) -> Result<TermForm, Memory>
    ensures { IfOk result (λ form'. term_of_form form' ≡ substitute_at binders closed.now (term_of_form form)) }
{
    match form {
        TermForm::Unit => Ok(TermForm::Unit),
        TermForm::Int(number) => Ok(TermForm::Int(number)),
        TermForm::Var(number) if u64::from(number) == binders => {
            let Term { form } = closed.copy(alloc)?;
            Ok(form)
        }
        TermForm::Var(number) => Ok(TermForm::Var(number)),
        TermForm::Lam { param, body } => Ok(TermForm::Lam {
            param,
            body: substitute_boxed(alloc, body, deeper(binders)?, closed)?,
        }),
        TermForm::App { function, argument } => Ok(TermForm::App {
            function: substitute_boxed(alloc, function, binders, closed)?,
            argument: substitute_boxed(alloc, argument, binders, closed)?,
        }),
        TermForm::Bin { op, left, right } => Ok(TermForm::Bin {
            op,
            left: substitute_boxed(alloc, left, binders, closed)?,
            right: substitute_boxed(alloc, right, binders, closed)?,
        }),
        TermForm::If { condition, yes, no } => Ok(TermForm::If {
            condition: substitute_boxed(alloc, condition, binders, closed)?,
            yes: substitute_boxed(alloc, yes, binders, closed)?,
            no: substitute_boxed(alloc, no, binders, closed)?,
        }),
        TermForm::Let { bound, body } => {
            let inside = deeper(binders)?;
            Ok(TermForm::Let {
                bound: substitute_boxed(alloc, bound, binders, closed)?,
                body: substitute_boxed(alloc, body, inside, closed)?,
            })
        }
        TermForm::Input(number) => Ok(TermForm::Input(number)),
        TermForm::Node(number) => Ok(TermForm::Node(number)),
        TermForm::Lift {
            function,
            arguments,
        } => Ok(TermForm::Lift {
            function: substitute_boxed(alloc, function, binders, closed)?,
            arguments: substitute_arguments(alloc, arguments, binders, closed)?,
        }),
        TermForm::Foldp {
            function,
            base,
            signal,
        } => Ok(TermForm::Foldp {
            function: substitute_boxed(alloc, function, binders, closed)?,
            base: substitute_boxed(alloc, base, binders, closed)?,
            signal: substitute_boxed(alloc, signal, binders, closed)?,
        }),
        TermForm::Async { signal } => Ok(TermForm::Async {
            signal: substitute_boxed(alloc, signal, binders, closed)?,
        }),
    }
}

#[cycle(substitute)]
fn substitute_arguments(
    alloc: Global,
    terms: Box<Terms>,
    binders: u64,
    closed: &Term,
) -> Result<Box<Terms>, Memory>
    ensures { IfOk result (λ boxed. boxed.value ≡ substitute_all binders closed.now terms.value) }
{
    let Terms { form } = Box::into_inner(terms);
    match form {
        TermsForm::End => boxed(
            alloc,
            Terms {
                form: TermsForm::End,
            },
        ),
        TermsForm::More { first, rest } => {
            let first = substitute_at(alloc, first, binders, closed)?;
            let rest = substitute_arguments(alloc, rest, binders, closed)?;
            boxed(
                alloc,
                Terms {
                    form: TermsForm::More { first, rest },
                },
            )
        }
    }
}

// One binder more. No memory holds a term with so many that the count leaves 64 bits.
fn deeper(binders: u64) -> Result<u64, Memory>
    ensures { IfOk result (λ count. count ≡ suc binders) }
{
    binders.checked_add(1).ok_or(Memory)
}
