//! The texts of types.
ghost use Rattle.std.specs.Prelude.{◌≡◌, not};
ghost use Rattle.std.specs.Fmt.{WritesOnOk};
ghost use Rattle.felm_printer.specs.Terms.{bracketed, is_arrow, is_word, type_text};

use felm_term::{Ty, TyForm};
use std::fmt;
use std::fmt::{Display, Formatter};

/// Shows a type as programs write it.
#[derive(Clone, Copy)]
pub(crate) struct TypeText<'a> {
    pub ty: &'a Ty,
}

impl Display for TypeText<'_> {
    ghost use Rattle.std.specs.Prelude.{Some};
    ghost use Rattle.felm_printer.specs.Terms.{type_text};

    ghost output = { λ text. Some (type_text text.ty.now) };

    fn fmt<W: fmt::Write>(&self, f: &mut Formatter<W>) -> fmt::Result {
        write_type(f, self.ty)
    }
}

#[cycle(write_type)]
fn write_type<W: fmt::Write>(f: &mut Formatter<W>, ty: &Ty) -> fmt::Result
    ensures { WritesOnOk W.write_str_gives f.old result (type_text ty.now) f.new }
{
    match &ty.form {
        TyForm::Unit => f.write_str("unit"),
        TyForm::Int => f.write_str("int"),
        TyForm::Arrow { from, to } => {
            write_bracketed(f, is_arrow(from), from)?;
            f.write_str(" -> ")?;
            write_type(f, to)
        }
        TyForm::Signal(of) => {
            f.write_str("signal ")?;
            write_bracketed(f, !is_word(of), of)
        }
    }
}

#[cycle(write_type)]
fn write_bracketed<W: fmt::Write>(f: &mut Formatter<W>, needed: bool, ty: &Ty) -> fmt::Result
    ensures { WritesOnOk W.write_str_gives f.old result (bracketed needed (type_text ty.now)) f.new }
{
    if needed {
        f.write_str("(")?;
        write_type(f, ty)?;
        f.write_str(")")
    } else {
        write_type(f, ty)
    }
}

fn is_arrow(ty: &Ty) -> bool
    ensures { result ≡ is_arrow ty.now }
{
    matches!(&ty.form, TyForm::Arrow { .. })
}

fn is_word(ty: &Ty) -> bool
    ensures { result ≡ is_word ty.now }
{
    matches!(&ty.form, TyForm::Unit | TyForm::Int)
}
