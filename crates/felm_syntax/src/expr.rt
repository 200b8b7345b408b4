//! Expressions with their places.

use felm_term::{Name, Op, Ty};
use std::marker::Model;

/// An expression, which contracts see as an `Expression`.
#[cycle(expr)]
#[derive(Drop)]
pub struct Expr {
    pub form: Form,
    /// Where the expression is named in faults: a byte of the text, counted from 0.
    pub at: usize,
}

/// The forms of an expression.
#[cycle(expr)]
#[derive(Drop)]
pub enum Form {
    Unit,
    Int(i64),
    Name(Name),
    Lam {
        name: Name,
        param: RawTy,
        body: Box<Expr>,
    },
    App {
        function: Box<Expr>,
        argument: Box<Expr>,
    },
    Bin {
        op: Op,
        left: Box<Expr>,
        right: Box<Expr>,
    },
    If {
        condition: Box<Expr>,
        yes: Box<Expr>,
        no: Box<Expr>,
    },
    Let {
        name: Name,
        bound: Box<Expr>,
        body: Box<Expr>,
    },
    Lift {
        function: Box<Expr>,
        arguments: Box<Exprs>,
    },
    Foldp {
        function: Box<Expr>,
        base: Box<Expr>,
        signal: Box<Expr>,
    },
    Async {
        signal: Box<Expr>,
    },
}

/// A type as it is written, well formed or not.
#[derive(Drop)]
pub struct RawTy {
    pub ty: Ty,
    /// The start of its first token.
    pub at: usize,
}

/// The arguments of a lift in order, which contracts see as `Expressions`.
#[cycle(expr)]
#[derive(Drop)]
pub struct Exprs {
    pub form: ExprsForm,
}

/// The forms of a list of expressions.
#[cycle(expr)]
#[derive(Drop)]
pub enum ExprsForm {
    End,
    More { first: Expr, rest: Box<Exprs> },
}

impl Model for Expr {
    ghost use Rattle.felm_syntax.specs.Expression.{Expression, depth};
    ghost use Rattle.felm_syntax.specs.Codes.{coded_expression};

    ghost Value = { Expression };

    ghost coded = { coded_expression };

    ghost use Rattle.felm_syntax.specs.ExpressionView.{expression_of_form};

    ghost view = { λ a. expression_of_form a.form a.at };

    ghost size = { depth };

    ghost use Rattle.felm_syntax.specs.ExpressionFalls.{falls};

    ghost size_decreases = { λ a h. falls a.form a.at };
}

impl Model for Exprs {
    ghost use Rattle.felm_syntax.specs.Expression.{Expressions, depth_all};
    ghost use Rattle.felm_syntax.specs.Codes.{coded_expressions};

    ghost Value = { Expressions };

    ghost coded = { coded_expressions };

    ghost use Rattle.felm_syntax.specs.ExpressionView.{expressions_of_form};

    ghost view = { λ a. expressions_of_form a.form };

    ghost size = { depth_all };

    ghost use Rattle.felm_syntax.specs.ExpressionFalls.{falls_all};

    ghost size_decreases = { λ a h. falls_all a.form };
}
