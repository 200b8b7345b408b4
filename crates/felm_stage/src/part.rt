ghost use Rattle.std.specs.Prelude.{IfOk};
ghost use Rattle.felm_term.specs.Typing.{HasSimpleType};
ghost use Rattle.felm_stage.specs.Moves.{IsReduced};

use felm_reduce::{Reduced, reduce};
use felm_term::{Memory, Term};
use std::alloc::Global;

/// The value of a closed part of a simple type, whose steps are taken from those that are left. There is none where
/// the part takes more.
pub fn reduce_part(alloc: Global, part: Term, left: &mut u64) -> Result<Option<Term>, Memory>
    requires { HasSimpleType part }
    ensures { IfOk result (IsReduced part left.old left.new) }
{
    match reduce(alloc, part, *left)? {
        Reduced::Over => Ok(None),
        Reduced::Value { value, steps } => {
            *left -= steps;
            Ok(Some(value.to_term(alloc)?))
        }
    }
}
