ghost use Rattle.std.specs.Prelude.{◌≡◌, [], ◌∷◌, ◌++◌, OnOk, MatchOption};

use felm_term::{Memory, Op, Term};

/// One term around the place of the next step, without its part at that place.
#[derive(Drop)]
pub enum Frame {
    /// An application, whose function is at the place.
    Argument(Term),
    /// An operator, whose left operand is at the place.
    RightOperand { op: Op, right: Term },
    /// An operator, whose right operand is at the place.
    LeftOperand { op: Op, left: i64 },
    /// A conditional, whose condition is at the place.
    Branches { yes: Term, no: Term },
    /// A let, whose bound part is at the place.
    Body(Term),
}

/// Appends an item, such as a frame inside the others.
pub fn put<T: Drop>(items: &mut Vec<T>, item: T) -> Result<(), Memory>
    ensures { OnOk result (items.new.items ≡ items.old.items ++ item ∷ []) }
{
    match items.push(item) {
        Ok(()) => Ok(()),
        Err(_) => Err(Memory),
    }
}

/// Takes the innermost frame off.
pub fn innermost(frames: &mut Vec<Frame>) -> Option<Frame>
    ensures { MatchOption result (frames.old.items ≡ []) (λ frame. frames.old.items ≡ frames.new.items ++ frame ∷ []) }
{
    frames.pop()
}
