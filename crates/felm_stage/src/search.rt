ghost use Rattle.std.specs.Prelude.{◌≡◌, ◌≤◌, [], IfOk};
ghost use Rattle.felm_stage.specs.Frames.{plug, AreGood};
ghost use Rattle.felm_stage.specs.Moves.{focus_term, IsGoodFocus, IsTypedWhole, Follows, Leads, Finds};

use crate::climb::{climb_signal, climb_value};
use crate::contract::Redex;
use crate::enter::enter;
use crate::frame::{Focus, Frame, Move, innermost, put};
use felm_term::{Memory, Term};
use std::alloc::Global;

/// Where a move leads.
#[derive(Drop)]
pub enum Moved {
    On(Focus),
    Ready(Redex),
    /// The whole is a signal term.
    Done(Term),
    Over,
}

/// What a search comes to.
#[derive(Drop)]
pub enum Found {
    /// A redex, whose step is not taken yet.
    Ready(Redex),
    /// A signal term, which has none.
    Done(Term),
    /// More steps than are left.
    Over,
}

/// The next redex in a term and its frames that is none of a part of a simple type; the frames become those around it.
/// The steps of such parts on the way are taken from those that are left.
pub fn seek(
    alloc: Global,
    frames: &mut Vec<Frame>,
    term: Term,
    left: &mut u64,
) -> Result<Found, Memory>
    requires typed { IsTypedWhole (plug frames.old.items term) }
    requires good { AreGood frames.old.items }
    ensures { IfOk result (Finds (plug frames.old.items term) left.old frames.new.items left.new) }
{
    let mut focus = Focus::Whole(term);
    'on: loop {
        match advance(alloc, frames, focus, left)? {
            Moved::On(next) => focus = next,
            Moved::Ready(redex) => return Ok(Found::Ready(redex)),
            Moved::Done(signal) => return Ok(Found::Done(signal)),
            Moved::Over => return Ok(Found::Over),
        }
    }
}

// One move of the search.
fn advance(
    alloc: Global,
    frames: &mut Vec<Frame>,
    focus: Focus,
    left: &mut u64,
) -> Result<Moved, Memory>
    requires typed { IsTypedWhole (plug frames.old.items (focus_term focus)) }
    requires good { AreGood frames.old.items }
    requires focus { IsGoodFocus focus }
    ensures { IfOk result (Leads frames.old.items focus left.old frames.new.items left.new) }
{
    match focus {
        Focus::Whole(term) => {
            let entered = enter(alloc, term, left)?;
            follow(frames, entered)
        }
        Focus::Value(value) => match innermost(frames) {
            Some(frame) => follow(frames, climb_value(frame, value)),
            None => unreachable!(),
        },
        Focus::Signal(signal) => match innermost(frames) {
            Some(frame) => {
                let climbed = climb_signal(alloc, frame, signal)?;
                follow(frames, climbed)
            }
            None => Ok(Moved::Done(signal)),
        },
    }
}

// Makes a move.
fn follow(frames: &mut Vec<Frame>, taken: Move) -> Result<Moved, Memory>
    ensures { IfOk result (Follows frames.old.items taken frames.new.items) }
{
    match taken {
        Move::Into(frame, part) => {
            put(frames, frame)?;
            Ok(Moved::On(Focus::Whole(part)))
        }
        Move::Value(value) => Ok(Moved::On(Focus::Value(value))),
        Move::Signal(signal) => Ok(Moved::On(Focus::Signal(signal))),
        Move::Ready(redex) => Ok(Moved::Ready(redex)),
        Move::Over => Ok(Moved::Over),
    }
}
