ghost use Rattle.std.specs.Prelude.{◌≡◌, [], ◌∷◌, ◌++◌, OnOk, MatchOption};

use crate::arguments::Arguments;
use felm_term::{Memory, Terms, Value};

/// A term around the one at hand: what is known of it, and what is left to lay out.
#[derive(Drop)]
pub enum Frame<'a> {
    /// A lift: the roots of the arguments before the one at hand, and the arguments behind it.
    Lift {
        function: Value,
        done: Arguments,
        rest: &'a Terms,
    },
    /// A foldp, whose signal is at hand.
    Foldp {
        function: Value,
        base: Value,
    },
    /// An async, whose signal is at hand.
    Async,
}

/// Appends a frame inside the others.
pub fn put<'a>(frames: &mut Vec<Frame<'a>>, frame: Frame<'a>) -> Result<(), Memory>
    ensures { OnOk result (frames.new.items ≡ frames.old.items ++ frame.entry ∷ []) }
{
    match frames.push(frame) {
        Ok(()) => Ok(()),
        Err(_) => Err(Memory),
    }
}

/// Takes the innermost frame off.
pub fn innermost<'a>(frames: &mut Vec<Frame<'a>>) -> Option<Frame<'a>>
    ensures { MatchOption result ((frames.old.items ≡ []) × (frames.new.items ≡ [])) (λ frame. frames.old.items ≡ frames.new.items ++ frame ∷ []) }
{
    frames.pop()
}
