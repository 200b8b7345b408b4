//! The signs of operators.
ghost use Rattle.std.specs.Prelude.{◌≡◌};
ghost use Rattle.felm_printer.specs.Terms.{sign_of};

use felm_term::Op;
use std::fmt;
use std::fmt::{Display, Formatter};

/// Shows an operator as programs write it.
#[derive(Clone, Copy)]
pub(crate) struct Sign {
    pub op: Op,
}

impl Display for Sign {
    ghost use Rattle.std.specs.Prelude.{Some};
    ghost use Rattle.felm_printer.specs.Terms.{sign_of};

    ghost output = { λ sign. Some (sign_of sign.op) };

    fn fmt<W: fmt::Write>(&self, f: &mut Formatter<W>) -> fmt::Result {
        f.write_str(sign_of(self.op))
    }
}

fn sign_of(op: Op) -> &'static str
    ensures { result.now ≡ sign_of op }
{
    match op {
        Op::Add => "+",
        Op::Sub => "-",
        Op::Mul => "*",
        Op::Div => "//",
        Op::Rem => "%",
        Op::Eq => "==",
        Op::Ne => "/=",
        Op::Lt => "<",
        Op::Le => "<=",
        Op::Gt => ">",
        Op::Ge => ">=",
        Op::And => "&&",
        Op::Or => "||",
    }
}
