ghost use Rattle.std.specs.Prelude.{◌≡◌, [], ◌∷◌, ◌++◌, OnOk, MatchOption};
ghost use Rattle.felm_stage.specs.declared.frame.Move.TheVariants as move;

use crate::contract::Redex;
use felm_term::{Memory, Term, Terms};

/// One term around the place of the next step, without its part at that place.
#[derive(Drop)]
pub enum Frame {
    /// An application, whose function is at the place.
    Argument(Term),
    /// A let, whose bound part is at the place.
    Body(Term),
    /// A lift, one of whose arguments is at the place: those before it are signal terms.
    Arguments {
        function: Term,
        done: Vec<Term>,
        rest: Terms,
    },
    /// A foldp, whose signal is at the place.
    Foldp {
        function: Term,
        base: Term,
    },
    /// An async, whose signal is at the place.
    Async,
}

/// The term at the place, and what is known of it.
#[derive(Drop)]
pub enum Focus {
    /// Nothing is known yet.
    Whole(Term),
    /// It is a value.
    Value(Term),
    /// It is a signal term.
    Signal(Term),
}

/// What one move makes of a term.
#[derive(Drop)]
pub enum Move {
    /// A part of it is next, inside a frame.
    Into(Frame, Term),
    Value(Term),
    Signal(Term),
    /// A rule applies to it.
    Ready(Redex),
    /// A part of it takes more steps than are left.
    Over,
}

/// Appends an item, such as a frame inside the others.
pub fn put<T: Drop>(items: &mut Vec<T>, item: T) -> Result<(), Memory>
    ensures { OnOk result (items.new.items ≡ items.old.items ++ item ∷ []) }
{
    match items.push(item) {
        Ok(()) => Ok(()),
        Err(_) => Err(Memory),
    }
}

/// Takes the innermost frame off.
pub fn innermost(frames: &mut Vec<Frame>) -> Option<Frame>
    ensures { MatchOption result ((frames.old.items ≡ []) × (frames.new.items ≡ [])) (λ frame. frames.old.items ≡ frames.new.items ++ frame ∷ []) }
{
    frames.pop()
}

/// A part of a term takes too many steps, and the rest of the term is let go.
pub fn over<T: Drop>(_: T) -> Move
    ensures { result ≡ move.Over }
{
    Move::Over
}
