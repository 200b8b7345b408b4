//! Types.
ghost use Rattle.std.specs.Prelude.{◌≡◌};
ghost use Rattle.felm_parser.specs.Gives.{Gives};
ghost use Rattle.felm_reading.specs.Reading.{type_in, whole_type, signal_type, closed_type};

use crate::fault::ParseFault;
use crate::head::{Reading, after, expect, has_mark, has_word, place, refused, starts_type};
use crate::parts::boxed;
use felm_lexer::{Symbol, Token, WordKind};
use felm_term::{Ty, TyForm};
use std::alloc::Global;

/// A type, with so much room for it and what nests deeper.
#[cycle(types)]
#[tactic(auto, using(crate::proofs::Steps::steps), unfolding(felm_reading::specs::Reading::type_in))]
pub fn type_in<'a>(alloc: Global, text: &[u8], room: u32, tokens: &'a [Token]) -> Reading<'a, Ty>
    ensures { Gives (λ x. (x.0, x.1.now)) result (type_in text.now room tokens.now) }
{
    if room == 0 {
        return Err(refused(text, starts_type(tokens), tokens));
    }
    whole_type(alloc, text, room - 1, tokens)
}

/// A type, with so much room for what nests deeper. Arrows group to the right.
#[cycle(types)]
#[tactic(auto, unfolding(felm_reading::specs::Reading::whole_type))]
fn whole_type<'a>(alloc: Global, text: &[u8], room: u32, tokens: &'a [Token]) -> Reading<'a, Ty>
    ensures { Gives (λ x. (x.0, x.1.now)) result (whole_type text.now (type_in text.now room) tokens.now) }
{
    let (from, rest) = signal_type(alloc, text, room, tokens)?;
    if !has_mark(Symbol::Arrow, rest) {
        return Ok((from, rest));
    }
    let (to, rest) = type_in(alloc, text, room, after(rest))?;
    let from = boxed(alloc, from)?;
    let to = boxed(alloc, to)?;
    Ok((
        Ty {
            form: TyForm::Arrow { from, to },
        },
        rest,
    ))
}

/// What may stand before an arrow.
#[cycle(types)]
#[tactic(auto, unfolding(felm_reading::specs::Reading::signal_type))]
fn signal_type<'a>(alloc: Global, text: &[u8], room: u32, tokens: &'a [Token]) -> Reading<'a, Ty>
    ensures { Gives (λ x. (x.0, x.1.now)) result (signal_type text.now (type_in text.now room) tokens.now) }
{
    if !has_word(WordKind::Signal, tokens) {
        return closed_type(alloc, text, room, tokens);
    }
    let (of, rest) = closed_type(alloc, text, room, after(tokens))?;
    let of = boxed(alloc, of)?;
    Ok((
        Ty {
            form: TyForm::Signal(of),
        },
        rest,
    ))
}

/// A type of one word, or one in brackets.
#[cycle(types)]
#[tactic(auto, unfolding(felm_reading::specs::Reading::closed_type))]
fn closed_type<'a>(alloc: Global, text: &[u8], room: u32, tokens: &'a [Token]) -> Reading<'a, Ty>
    ensures { Gives (λ x. (x.0, x.1.now)) result (closed_type text.now (type_in text.now room) tokens.now) }
{
    if has_word(WordKind::Int, tokens) {
        return Ok((Ty { form: TyForm::Int }, after(tokens)));
    }
    if has_word(WordKind::Unit, tokens) {
        return Ok((Ty { form: TyForm::Unit }, after(tokens)));
    }
    if !has_mark(Symbol::OpenBracket, tokens) {
        return Err(ParseFault::Syntax {
            at: place(text, tokens),
        });
    }
    let (inner, rest) = type_in(alloc, text, room, after(tokens))?;
    let rest = expect(text, Symbol::CloseBracket, rest)?;
    Ok((inner, rest))
}
