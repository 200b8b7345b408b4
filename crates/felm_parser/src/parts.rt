//! Parts of types and expressions, made with memory.
ghost use Rattle.std.specs.Prelude.{◌≡◌, Ok};
ghost use Rattle.felm_syntax.specs.Expression.{Bin, App};
ghost use Rattle.felm_parser.specs.Gives.{Gives};

use crate::fault::ParseFault;
use felm_syntax::{Expr, Form};
use felm_term::{Name, Op};
use std::alloc::Global;

/// The item in a box.
pub fn boxed<T: Drop>(alloc: Global, item: T) -> Result<Box<T>, ParseFault>
    ensures { Gives (λ boxed. boxed.value) result (Ok item) }
{
    Ok(felm_term::boxed(alloc, item)?)
}

/// The name with this text.
pub fn named(alloc: Global, text: &str) -> Result<Name, ParseFault>
    ensures { Gives (λ name. name) result (Ok text.now) }
{
    Ok(Name::of(alloc, text)?)
}

/// A binary operation, which stands at its operator.
pub fn binary(alloc: Global, op: Op, left: Expr, right: Expr, at: usize) -> Result<Expr, ParseFault>
    ensures { Gives (λ made. made) result (Ok (Bin op left right at)) }
{
    let left = boxed(alloc, left)?;
    let right = boxed(alloc, right)?;
    Ok(Expr {
        form: Form::Bin { op, left, right },
        at,
    })
}

/// An application, which stands at its argument.
pub fn application(
    alloc: Global,
    function: Expr,
    argument: Expr,
    at: usize,
) -> Result<Expr, ParseFault>
    ensures { Gives (λ made. made) result (Ok (App function argument at)) }
{
    let function = boxed(alloc, function)?;
    let argument = boxed(alloc, argument)?;
    Ok(Expr {
        form: Form::App { function, argument },
        at,
    })
}
