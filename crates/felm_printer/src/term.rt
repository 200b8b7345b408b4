//! The texts of terms, written by a recursion down the term.
ghost use Rattle.std.specs.Prelude.{◌≡◌, suc, ◌+◌, ◌-◌, ◌++◌, IfOk};
ghost use Rattle.std.specs.Fmt.{WritesOnOk};
ghost use Rattle.felm_term.specs.CoreTerm.{count};
ghost use Rattle.felm_printer.specs.Terms.{term_text, arguments_text, number_text, binder_text};

use crate::sign::Sign;
use crate::ty::TypeText;
use felm_term::{Memory, Term, TermForm, Terms, TermsForm, Value};
use std::alloc::Global;
use std::fmt;
use std::fmt::{Display, Formatter};

/// The text of a closed term.
pub fn term_text(alloc: Global, term: &Term) -> Result<Vec<u8>, Memory>
    ensures { IfOk result (λ text. text.items ≡ term_text 0 term.now) }
{
    let whole = TermText { term };
    match format!(in alloc; "{whole}") {
        Ok(text) => Ok(text.into_bytes()),
        Err(_) => Err(Memory),
    }
}

/// Shows a closed term.
#[derive(Clone, Copy)]
pub(crate) struct TermText<'a> {
    pub term: &'a Term,
}

impl Display for TermText<'_> {
    ghost use Rattle.std.specs.Prelude.{Some};
    ghost use Rattle.felm_printer.specs.Terms.{term_text};

    ghost output = { λ text. Some (term_text 0 text.term.now) };

    fn fmt<W: fmt::Write>(&self, f: &mut Formatter<W>) -> fmt::Result {
        write_term(f, self.term, 0)
    }
}

/// Shows a value as the closed term that it is.
#[derive(Clone, Copy)]
pub(crate) struct ValueTerm<'a> {
    pub value: &'a Value,
}

impl Display for ValueTerm<'_> {
    ghost use Rattle.std.specs.Prelude.{Some};
    ghost use Rattle.felm_term.specs.Values.{term_of};
    ghost use Rattle.felm_printer.specs.Terms.{term_text};

    ghost output = { λ text. Some (term_text 0 (term_of text.value.now)) };

    fn fmt<W: fmt::Write>(&self, f: &mut Formatter<W>) -> fmt::Result {
        match self.value {
            Value::Unit => f.write_str("()"),
            Value::Int(number) => write_number(f, *number),
            Value::Fun(function) => write_term(f, function.as_term(), 0),
        }
    }
}

fn write_number<W: fmt::Write>(f: &mut Formatter<W>, number: i64) -> fmt::Result
    ensures { WritesOnOk W.write_str_gives f.old result (number_text number) f.new }
{
    if number < 0 {
        write!(f, "({number})")
    } else {
        write!(f, "{number}")
    }
}

// Writes a part of a term that so many binders of the term enclose. There is no room for a term
// with 2^64 of them, and an error says so.
#[cycle(write_term)]
fn write_term<W: fmt::Write>(f: &mut Formatter<W>, term: &Term, depth: u64) -> fmt::Result
    ensures { WritesOnOk W.write_str_gives f.old result (term_text depth term.now) f.new }
{
    match &term.form {
        TermForm::Unit => f.write_str("()"),
        TermForm::Int(number) => write_number(f, *number),
        TermForm::Var(binders) => write_variable(f, *binders, depth),
        TermForm::Input(number) => write!(f, "#{number}"),
        TermForm::Node(number) => write!(f, "${number}"),
        TermForm::Lam { param, body } => {
            let inner = deeper(depth)?;
            let param = TypeText { ty: param };
            write!(f, "(\\v{depth}:{param}")?;
            write_part(f, ". ", body, inner)?;
            f.write_str(")")
        }
        TermForm::App { function, argument } => {
            write_part(f, "(", function, depth)?;
            write_part(f, " ", argument, depth)?;
            f.write_str(")")
        }
        TermForm::Bin { op, left, right } => {
            let sign = Sign { op: *op };
            write_part(f, "(", left, depth)?;
            write!(f, " {sign}")?;
            write_part(f, " ", right, depth)?;
            f.write_str(")")
        }
        TermForm::If { condition, yes, no } => {
            write_part(f, "(if ", condition, depth)?;
            write_part(f, " then ", yes, depth)?;
            write_part(f, " else ", no, depth)?;
            f.write_str(")")
        }
        TermForm::Let { bound, body } => {
            let inner = deeper(depth)?;
            write!(f, "(let v{depth}")?;
            write_part(f, " = ", bound, depth)?;
            write_part(f, " in ", body, inner)?;
            f.write_str(")")
        }
        TermForm::Lift {
            function,
            arguments,
        } => {
            let count = count(arguments)?;
            write!(f, "(lift{count}")?;
            write_part(f, " ", function, depth)?;
            write_arguments(f, arguments, depth)?;
            f.write_str(")")
        }
        TermForm::Foldp {
            function,
            base,
            signal,
        } => {
            write_part(f, "(foldp ", function, depth)?;
            write_part(f, " ", base, depth)?;
            write_part(f, " ", signal, depth)?;
            f.write_str(")")
        }
        TermForm::Async { signal } => {
            write_part(f, "(async ", signal, depth)?;
            f.write_str(")")
        }
    }
}

// Writes some words and a part behind them.
#[cycle(write_term)]
fn write_part<W: fmt::Write>(
    f: &mut Formatter<W>,
    words: &str,
    part: &Term,
    depth: u64,
) -> fmt::Result
    ensures { WritesOnOk W.write_str_gives f.old result (words.now ++ term_text depth part.now) f.new }
{
    f.write_str(words)?;
    write_term(f, part, depth)
}

#[cycle(write_term)]
fn write_arguments<W: fmt::Write>(
    f: &mut Formatter<W>,
    arguments: &Terms,
    depth: u64,
) -> fmt::Result
    ensures { WritesOnOk W.write_str_gives f.old result (arguments_text depth arguments.now) f.new }
{
    match &arguments.form {
        TermsForm::End => Ok(()),
        TermsForm::More { first, rest } => {
            write_part(f, " ", first, depth)?;
            write_arguments(f, rest, depth)
        }
    }
}

fn write_variable<W: fmt::Write>(f: &mut Formatter<W>, binders: u32, depth: u64) -> fmt::Result
    ensures { WritesOnOk W.write_str_gives f.old result (binder_text (depth - suc binders)) f.new }
{
    let number = depth.saturating_sub(u64::from(binders) + 1);
    write!(f, "v{number}")
}

// One binder more.
fn deeper(depth: u64) -> Result<u64, fmt::Error>
    ensures { IfOk result (λ inner. inner ≡ depth + 1) }
{
    depth.checked_add(1).ok_or(fmt::Error)
}

// How many arguments there are.
fn count(arguments: &Terms) -> Result<u64, fmt::Error>
    ensures { IfOk result (λ number. number ≡ count arguments.now) }
{
    match &arguments.form {
        TermsForm::End => Ok(0),
        TermsForm::More { rest, .. } => deeper(count(rest)?),
    }
}
