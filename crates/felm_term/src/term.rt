ghost use Rattle.std.specs.Prelude.{◌≡◌, IfOk, IsTrue, ◌↔◌};
ghost use Rattle.felm_term.specs.TermView.{term_of_form, terms_of_form};

use crate::memory::{Memory, boxed};
use crate::op::Op;
use crate::ty::{Ty, same_ty};
use std::alloc::Global;
use std::marker::Model;

/// A core term, which contracts see as a `CoreTerm`: numbers stand for names.
#[cycle(term)]
#[derive(Debug, Drop)]
pub struct Term {
    pub form: TermForm,
}

/// The forms of a term.
#[cycle(term)]
#[derive(Debug, Drop)]
pub enum TermForm {
    Unit,
    Int(i64),
    /// A variable, by how many other binders stand between it and its own.
    Var(u32),
    Lam {
        param: Ty,
        body: Box<Term>,
    },
    App {
        function: Box<Term>,
        argument: Box<Term>,
    },
    Bin {
        op: Op,
        left: Box<Term>,
        right: Box<Term>,
    },
    If {
        condition: Box<Term>,
        yes: Box<Term>,
        no: Box<Term>,
    },
    Let {
        bound: Box<Term>,
        body: Box<Term>,
    },
    /// A declared input, counted from 0.
    Input(u32),
    /// A shared signal, counted from 0.
    Node(u32),
    Lift {
        function: Box<Term>,
        arguments: Box<Terms>,
    },
    Foldp {
        function: Box<Term>,
        base: Box<Term>,
        signal: Box<Term>,
    },
    Async {
        signal: Box<Term>,
    },
}

/// The arguments of a lift in order, which contracts see as `CoreTerms`.
#[cycle(term)]
#[derive(Debug, Drop)]
pub struct Terms {
    pub form: TermsForm,
}

/// The forms of a list of terms.
#[cycle(term)]
#[derive(Debug, Drop)]
pub enum TermsForm {
    End,
    More { first: Term, rest: Box<Terms> },
}

impl Model for Term {
    ghost use Rattle.felm_term.specs.CoreTerm.{CoreTerm, depth};
    ghost use Rattle.felm_term.specs.Codes.{coded_term};

    ghost Value = { CoreTerm };

    ghost coded = { coded_term };

    ghost use Rattle.felm_term.specs.TermView.{term_of_form};

    ghost view = { λ a. term_of_form a.form };

    ghost size = { depth };

    ghost use Rattle.felm_term.specs.TermFalls.{falls};

    ghost size_decreases = { λ a h. falls a.form };
}

impl Model for Terms {
    ghost use Rattle.felm_term.specs.CoreTerm.{CoreTerms, depth_all};
    ghost use Rattle.felm_term.specs.Codes.{coded_terms};

    ghost Value = { CoreTerms };

    ghost coded = { coded_terms };

    ghost use Rattle.felm_term.specs.TermView.{terms_of_form};

    ghost view = { λ a. terms_of_form a.form };

    ghost size = { depth_all };

    ghost use Rattle.felm_term.specs.TermFalls.{falls_all};

    ghost size_decreases = { λ a h. falls_all a.form };
}

impl Term {
    /// An equal term.
    #[cycle(copy)]
    pub fn copy(&self, alloc: Global) -> Result<Term, Memory>
        ensures { IfOk result (λ copy. copy ≡ self.now) }
    {
        Ok(Term {
            form: self.form.copy(alloc)?,
        })
    }

    #[cycle(copy)]
    fn copy_boxed(&self, alloc: Global) -> Result<Box<Term>, Memory>
        ensures { IfOk result (λ copy. copy.value ≡ self.now) }
    {
        boxed(alloc, self.copy(alloc)?)
    }
}

impl TermForm {
    #[cycle(copy)]
    fn copy(&self, alloc: Global) -> Result<TermForm, Memory>
        ensures { IfOk result (λ copy. term_of_form copy ≡ term_of_form self.now) }
    {
        match self {
            TermForm::Unit => Ok(TermForm::Unit),
            TermForm::Int(number) => Ok(TermForm::Int(*number)),
            TermForm::Var(binders) => Ok(TermForm::Var(*binders)),
            TermForm::Lam { param, body } => Ok(TermForm::Lam {
                param: param.copy(alloc)?,
                body: body.copy_boxed(alloc)?,
            }),
            TermForm::App { function, argument } => Ok(TermForm::App {
                function: function.copy_boxed(alloc)?,
                argument: argument.copy_boxed(alloc)?,
            }),
            TermForm::Bin { op, left, right } => Ok(TermForm::Bin {
                op: *op,
                left: left.copy_boxed(alloc)?,
                right: right.copy_boxed(alloc)?,
            }),
            TermForm::If { condition, yes, no } => Ok(TermForm::If {
                condition: condition.copy_boxed(alloc)?,
                yes: yes.copy_boxed(alloc)?,
                no: no.copy_boxed(alloc)?,
            }),
            TermForm::Let { bound, body } => Ok(TermForm::Let {
                bound: bound.copy_boxed(alloc)?,
                body: body.copy_boxed(alloc)?,
            }),
            TermForm::Input(number) => Ok(TermForm::Input(*number)),
            TermForm::Node(number) => Ok(TermForm::Node(*number)),
            TermForm::Lift {
                function,
                arguments,
            } => Ok(TermForm::Lift {
                function: function.copy_boxed(alloc)?,
                arguments: boxed(alloc, arguments.copy(alloc)?)?,
            }),
            TermForm::Foldp {
                function,
                base,
                signal,
            } => Ok(TermForm::Foldp {
                function: function.copy_boxed(alloc)?,
                base: base.copy_boxed(alloc)?,
                signal: signal.copy_boxed(alloc)?,
            }),
            TermForm::Async { signal } => Ok(TermForm::Async {
                signal: signal.copy_boxed(alloc)?,
            }),
        }
    }
}

impl Terms {
    /// Equal terms in the same order.
    #[cycle(copy)]
    pub fn copy(&self, alloc: Global) -> Result<Terms, Memory>
        ensures { IfOk result (λ copy. copy ≡ self.now) }
    {
        match &self.form {
            TermsForm::End => Ok(Terms {
                form: TermsForm::End,
            }),
            TermsForm::More { first, rest } => {
                let first = first.copy(alloc)?;
                let rest = boxed(alloc, rest.copy(alloc)?)?;
                Ok(Terms {
                    form: TermsForm::More { first, rest },
                })
            }
        }
    }
}

/// Whether two terms are equal.
#[cycle(same)]
pub fn same_term(left: &Term, right: &Term) -> bool
    ensures { IsTrue result ↔ (left.now ≡ right.now) }
{
    match (&left.form, &right.form) {
        (TermForm::Unit, TermForm::Unit) => true,
        (TermForm::Int(number), TermForm::Int(other)) => *number == *other,
        (TermForm::Var(number), TermForm::Var(other)) => *number == *other,
        (
            TermForm::Lam { param, body },
            TermForm::Lam {
                param: other_param,
                body: other_body,
            },
        ) => { same_ty(param, other_param) && same_term(body, other_body) }
        (
            TermForm::App { function, argument },
            TermForm::App {
                function: other_function,
                argument: other_argument,
            },
        ) => { same_term(function, other_function) && same_term(argument, other_argument) }
        (
            TermForm::Bin { op, left, right },
            TermForm::Bin {
                op: other_op,
                left: other_left,
                right: other_right,
            },
        ) => { *op == *other_op && same_term(left, other_left) && same_term(right, other_right) }
        (
            TermForm::If { condition, yes, no },
            TermForm::If {
                condition: other_condition,
                yes: other_yes,
                no: other_no,
            },
        ) => {
            same_term(condition, other_condition)
                && same_term(yes, other_yes)
                && same_term(no, other_no)
        }
        (
            TermForm::Let { bound, body },
            TermForm::Let {
                bound: other_bound,
                body: other_body,
            },
        ) => { same_term(bound, other_bound) && same_term(body, other_body) }
        (TermForm::Input(number), TermForm::Input(other)) => *number == *other,
        (TermForm::Node(number), TermForm::Node(other)) => *number == *other,
        (
            TermForm::Lift {
                function,
                arguments,
            },
            TermForm::Lift {
                function: other_function,
                arguments: other_arguments,
            },
        ) => { same_term(function, other_function) && same_terms(arguments, other_arguments) }
        (
            TermForm::Foldp {
                function,
                base,
                signal,
            },
            TermForm::Foldp {
                function: other_function,
                base: other_base,
                signal: other_signal,
            },
        ) => {
            same_term(function, other_function)
                && same_term(base, other_base)
                && same_term(signal, other_signal)
        }
        (
            TermForm::Async { signal },
            TermForm::Async {
                signal: other_signal,
            },
        ) => same_term(signal, other_signal),
        _ => false,
    }
}

#[cycle(same)]
fn same_terms(left: &Terms, right: &Terms) -> bool
    ensures { IsTrue result ↔ (left.now ≡ right.now) }
{
    match (&left.form, &right.form) {
        (TermsForm::End, TermsForm::End) => true,
        (
            TermsForm::More { first, rest },
            TermsForm::More {
                first: other_first,
                rest: other_rest,
            },
        ) => { same_term(first, other_first) && same_terms(rest, other_rest) }
        _ => false,
    }
}
