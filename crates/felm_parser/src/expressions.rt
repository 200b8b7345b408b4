//! Expressions. The functions call one another, so they stand in one module.
//!
//! `room` is how much deeper tokens may nest. Only phrases that nest deeper recurse with less of it,
//! and chains and applications are loops, so it bounds the recursion.
ghost use Rattle.std.specs.Prelude.{◌≡◌, ◌≢◌, ◌≤◌, IfErr};
ghost use Rattle.felm_parser.specs.Gives.{Gives};
ghost use Rattle.felm_parser.specs.Chains.{chain_of};
ghost use Rattle.felm_reading.specs.Reading.{Whole, reads_in, type_in, atom, bracketed, atoms, applied, lift, foldp, async_of, negative, operand, part_of, cmp, function, binding, choice, expr};

use crate::fault::ParseFault;
use crate::head::{
    Reading, after, comparison_at, expect, expect_word, has_mark, has_word, lift_at, operator_at,
    place, refused, starts_atom, starts_expr, starts_operand,
};
use crate::kinds::is_mark;
use crate::names::{name, name_of};
use crate::numbers::negated_numeral;
use crate::parts::{application, binary, boxed, named};
use crate::types::type_in;
use felm_lexer::{Symbol, Token, TokenKind, WordKind};
use felm_syntax::{Expr, Exprs, ExprsForm, Form, Level, RawTy};
use std::alloc::Global;

/// A negative number.
#[tactic(auto, unfolding(felm_reading::specs::Reading::negative))]
fn negative<'a>(text: &[u8], tokens: &'a [Token]) -> Reading<'a, Expr>
    ensures reads { Gives (λ x. (x.0, x.1.now)) result (negative text.now tokens.now) }
    ensures not_memory { IfErr result (λ fault. fault ≢ ParseFault.Memory) }
{
    let (number, rest) = negated_numeral(text, after(tokens))?;
    let at = place(text, tokens);
    Ok((
        Expr {
            form: Form::Int(number),
            at,
        },
        rest,
    ))
}

/// An expression, with so much room for it and what nests deeper.
#[cycle(expressions)]
#[tactic(auto, using(crate::proofs::Steps::steps), unfolding(felm_reading::specs::Reading::reads_in))]
pub fn whole<'a>(alloc: Global, text: &[u8], room: u32, tokens: &'a [Token]) -> Reading<'a, Expr>
    ensures { Gives (λ x. (x.0, x.1.now)) result (reads_in text.now room Whole tokens.now) }
{
    if room == 0 {
        return Err(refused(text, starts_expr(tokens), tokens));
    }
    expr(alloc, text, room - 1, tokens)
}

/// An expression, with so much room for what nests deeper.
#[cycle(expressions)]
#[tactic(auto, unfolding(felm_reading::specs::Reading::expr, felm_reading::specs::Reading::disjunction, felm_reading::specs::Reading::part_of))]
fn expr<'a>(alloc: Global, text: &[u8], room: u32, tokens: &'a [Token]) -> Reading<'a, Expr>
    ensures { Gives (λ x. (x.0, x.1.now)) result
        (expr text.now (reads_in text.now room) (type_in text.now room) tokens.now) }
{
    if has_mark(Symbol::Backslash, tokens) {
        return function(alloc, text, room, tokens);
    }
    if has_word(WordKind::Let, tokens) {
        return binding(alloc, text, room, tokens);
    }
    if has_word(WordKind::If, tokens) {
        return choice(alloc, text, room, tokens);
    }
    chain(alloc, text, Level::Or, room, tokens)
}

/// A function, from its `\` on.
#[cycle(expressions)]
#[tactic(auto, unfolding(felm_reading::specs::Reading::function))]
fn function<'a>(alloc: Global, text: &[u8], room: u32, tokens: &'a [Token]) -> Reading<'a, Expr>
    ensures { Gives (λ x. (x.0, x.1.now)) result
        (function text.now (reads_in text.now room) (type_in text.now room) tokens.now) }
{
    let (name, rest) = name(text, after(tokens))?;
    let type_tokens = expect(text, Symbol::Colon, rest)?;
    let (param, rest) = type_in(alloc, text, room, type_tokens)?;
    let rest = expect(text, Symbol::Dot, rest)?;
    let (body, rest) = whole(alloc, text, room, rest)?;
    let name = named(alloc, name)?;
    let body = boxed(alloc, body)?;
    let param = RawTy {
        ty: param,
        at: place(text, type_tokens),
    };
    let at = place(text, tokens);
    Ok((
        Expr {
            form: Form::Lam { name, param, body },
            at,
        },
        rest,
    ))
}

/// A `let`.
#[cycle(expressions)]
#[tactic(auto, unfolding(felm_reading::specs::Reading::binding))]
fn binding<'a>(alloc: Global, text: &[u8], room: u32, tokens: &'a [Token]) -> Reading<'a, Expr>
    ensures { Gives (λ x. (x.0, x.1.now)) result (binding text.now (reads_in text.now room) tokens.now) }
{
    let (name, rest) = name(text, after(tokens))?;
    let rest = expect(text, Symbol::Equals, rest)?;
    let (bound, rest) = whole(alloc, text, room, rest)?;
    let rest = expect_word(text, WordKind::In, rest)?;
    let (body, rest) = whole(alloc, text, room, rest)?;
    let name = named(alloc, name)?;
    let bound = boxed(alloc, bound)?;
    let body = boxed(alloc, body)?;
    let at = place(text, tokens);
    Ok((
        Expr {
            form: Form::Let { name, bound, body },
            at,
        },
        rest,
    ))
}

/// An `if`.
#[cycle(expressions)]
#[tactic(auto, unfolding(felm_reading::specs::Reading::choice))]
fn choice<'a>(alloc: Global, text: &[u8], room: u32, tokens: &'a [Token]) -> Reading<'a, Expr>
    ensures { Gives (λ x. (x.0, x.1.now)) result (choice text.now (reads_in text.now room) tokens.now) }
{
    let (condition, rest) = whole(alloc, text, room, after(tokens))?;
    let rest = expect_word(text, WordKind::Then, rest)?;
    let (yes, rest) = whole(alloc, text, room, rest)?;
    let rest = expect_word(text, WordKind::Else, rest)?;
    let (no, rest) = whole(alloc, text, room, rest)?;
    let condition = boxed(alloc, condition)?;
    let yes = boxed(alloc, yes)?;
    let no = boxed(alloc, no)?;
    let at = place(text, tokens);
    Ok((
        Expr {
            form: Form::If { condition, yes, no },
            at,
        },
        rest,
    ))
}

/// Parts with the level's operators between them, grouped to the left.
#[cycle(expressions)]
#[tactic(auto, using(crate::proofs::Steps::chains))]
fn chain<'a>(
    alloc: Global,
    text: &[u8],
    level: Level,
    room: u32,
    tokens: &'a [Token],
) -> Reading<'a, Expr>
    ensures { Gives (λ x. (x.0, x.1.now)) result
        (chain_of text.now (reads_in text.now room) level tokens.now) }
{
    let (mut left, mut rest) = part(alloc, text, level, room, tokens)?;
    let mut room = room;
    'operators: while let Some(op) = operator_at(level, rest) {
        let at = place(text, rest);
        let behind = after(rest);
        if room == 0 {
            return Err(refused(text, starts_operand(behind), behind));
        }
        room -= 1;
        let (right, more) = part(alloc, text, level, room, behind)?;
        left = binary(alloc, op, left, right, at)?;
        rest = more;
    }
    Ok((left, rest))
}

/// A part of a chain of this level: what binds tighter.
#[cycle(expressions)]
#[tactic(auto, unfolding(felm_reading::specs::Reading::part_of, felm_reading::specs::Reading::conjunction, felm_reading::specs::Reading::product))]
fn part<'a>(
    alloc: Global,
    text: &[u8],
    level: Level,
    room: u32,
    tokens: &'a [Token],
) -> Reading<'a, Expr>
    ensures { Gives (λ x. (x.0, x.1.now)) result
        (part_of text.now (reads_in text.now room) level tokens.now) }
{
    match level {
        Level::Or => chain(alloc, text, Level::And, room, tokens),
        Level::And => comparison(alloc, text, room, tokens),
        Level::Sum => chain(alloc, text, Level::Product, room, tokens),
        Level::Product => operand(alloc, text, room, tokens),
    }
}

/// A sum, or two that are compared. Comparisons make no chains.
#[cycle(expressions)]
#[tactic(auto, unfolding(felm_reading::specs::Reading::cmp, felm_reading::specs::Reading::compared, felm_reading::specs::Reading::sum, felm_reading::specs::Reading::part_of))]
fn comparison<'a>(alloc: Global, text: &[u8], room: u32, tokens: &'a [Token]) -> Reading<'a, Expr>
    ensures { Gives (λ x. (x.0, x.1.now)) result (cmp text.now (reads_in text.now room) tokens.now) }
{
    let (left, rest) = chain(alloc, text, Level::Sum, room, tokens)?;
    let Some(op) = comparison_at(rest) else {
        return Ok((left, rest));
    };
    let at = place(text, rest);
    let (right, rest) = chain(alloc, text, Level::Sum, room, after(rest))?;
    Ok((binary(alloc, op, left, right, at)?, rest))
}

/// What the tightest operators join.
#[cycle(expressions)]
#[tactic(auto, unfolding(felm_reading::specs::Reading::operand))]
fn operand<'a>(alloc: Global, text: &[u8], room: u32, tokens: &'a [Token]) -> Reading<'a, Expr>
    ensures { Gives (λ x. (x.0, x.1.now)) result (operand text.now (reads_in text.now room) tokens.now) }
{
    if has_mark(Symbol::Minus, tokens) {
        return negative(text, tokens);
    }
    if has_word(WordKind::Foldp, tokens) {
        return foldp(alloc, text, room, tokens);
    }
    if has_word(WordKind::Async, tokens) {
        return asynchronous(alloc, text, room, tokens);
    }
    match lift_at(tokens) {
        Some(count) => lift(alloc, text, room, count, tokens),
        None => applied(alloc, text, room, tokens),
    }
}

/// A lift of a function on so many signals.
#[cycle(expressions)]
#[tactic(auto, unfolding(felm_reading::specs::Reading::lift))]
fn lift<'a>(
    alloc: Global,
    text: &[u8],
    room: u32,
    count: u32,
    tokens: &'a [Token],
) -> Reading<'a, Expr>
    requires { count ≤ 9 }
    ensures { Gives (λ x. (x.0, x.1.now)) result (lift text.now (reads_in text.now room) count tokens.now) }
{
    let (function, rest) = atom(alloc, text, room, after(tokens))?;
    let (arguments, rest) = atoms(alloc, text, room, count, rest)?;
    let function = boxed(alloc, function)?;
    let arguments = boxed(alloc, arguments)?;
    let at = place(text, tokens);
    Ok((
        Expr {
            form: Form::Lift {
                function,
                arguments,
            },
            at,
        },
        rest,
    ))
}

/// So many atoms.
#[cycle(expressions)]
#[tactic(auto, using(crate::proofs::Steps::steps), unfolding(felm_reading::specs::Reading::atoms))]
fn atoms<'a>(
    alloc: Global,
    text: &[u8],
    room: u32,
    count: u32,
    tokens: &'a [Token],
) -> Reading<'a, Exprs>
    requires { count ≤ 9 }
    ensures { Gives (λ x. (x.0, x.1.now)) result (atoms text.now (reads_in text.now room) count tokens.now) }
{
    if count == 0 {
        return Ok((
            Exprs {
                form: ExprsForm::End,
            },
            tokens,
        ));
    }
    let (first, rest) = atom(alloc, text, room, tokens)?;
    let (others, rest) = atoms(alloc, text, room, count - 1, rest)?;
    let others = boxed(alloc, others)?;
    Ok((
        Exprs {
            form: ExprsForm::More {
                first,
                rest: others,
            },
        },
        rest,
    ))
}

/// A `foldp`.
#[cycle(expressions)]
#[tactic(auto, unfolding(felm_reading::specs::Reading::foldp))]
fn foldp<'a>(alloc: Global, text: &[u8], room: u32, tokens: &'a [Token]) -> Reading<'a, Expr>
    ensures { Gives (λ x. (x.0, x.1.now)) result (foldp text.now (reads_in text.now room) tokens.now) }
{
    let (function, rest) = atom(alloc, text, room, after(tokens))?;
    let (base, rest) = atom(alloc, text, room, rest)?;
    let (signal, rest) = atom(alloc, text, room, rest)?;
    let function = boxed(alloc, function)?;
    let base = boxed(alloc, base)?;
    let signal = boxed(alloc, signal)?;
    let at = place(text, tokens);
    Ok((
        Expr {
            form: Form::Foldp {
                function,
                base,
                signal,
            },
            at,
        },
        rest,
    ))
}

/// An `async`.
#[cycle(expressions)]
#[tactic(auto, unfolding(felm_reading::specs::Reading::async_of))]
fn asynchronous<'a>(alloc: Global, text: &[u8], room: u32, tokens: &'a [Token]) -> Reading<'a, Expr>
    ensures { Gives (λ x. (x.0, x.1.now)) result (async_of text.now (reads_in text.now room) tokens.now) }
{
    let (signal, rest) = atom(alloc, text, room, after(tokens))?;
    let signal = boxed(alloc, signal)?;
    let at = place(text, tokens);
    Ok((
        Expr {
            form: Form::Async { signal },
            at,
        },
        rest,
    ))
}

/// A function and its arguments, grouped to the left.
#[cycle(expressions)]
#[tactic(auto, using(crate::proofs::Steps::applications))]
fn applied<'a>(alloc: Global, text: &[u8], room: u32, tokens: &'a [Token]) -> Reading<'a, Expr>
    ensures { Gives (λ x. (x.0, x.1.now)) result (applied text.now (reads_in text.now room) tokens.now) }
{
    let (mut function, mut rest) = atom(alloc, text, room, tokens)?;
    let mut room = room;
    'arguments: while starts_atom(rest) {
        let at = place(text, rest);
        let (argument, more) = atom(alloc, text, room, rest)?;
        function = application(alloc, function, argument, at)?;
        rest = more;
        if room == 0 {
            if starts_atom(rest) {
                return Err(ParseFault::Depth {
                    at: place(text, rest),
                });
            }
            return Ok((function, rest));
        }
        room -= 1;
    }
    Ok((function, rest))
}

/// An expression that can be an argument.
#[cycle(expressions)]
#[tactic(auto, unfolding(felm_reading::specs::Reading::atom))]
fn atom<'a>(alloc: Global, text: &[u8], room: u32, tokens: &'a [Token]) -> Reading<'a, Expr>
    ensures { Gives (λ x. (x.0, x.1.now)) result (atom text.now (reads_in text.now room) tokens.now) }
{
    let [first, rest @ ..] = tokens else {
        return Err(ParseFault::Syntax { at: text.len() });
    };
    let at = first.start;
    match first.kind {
        TokenKind::Name => match name_of(text, first) {
            Some(name) => Ok((
                Expr {
                    form: Form::Name(named(alloc, name)?),
                    at,
                },
                rest,
            )),
            None => Err(ParseFault::Syntax { at }),
        },
        TokenKind::Int(number) => Ok((
            Expr {
                form: Form::Int(number),
                at,
            },
            rest,
        )),
        TokenKind::Mark(_) if is_mark(Symbol::OpenBracket, first.kind) => {
            bracketed(alloc, text, room, at, rest)
        }
        _ => Err(ParseFault::Syntax { at }),
    }
}

/// What stands behind an opening bracket: unit, or an expression in brackets.
#[cycle(expressions)]
#[tactic(auto, unfolding(felm_reading::specs::Reading::bracketed))]
fn bracketed<'a>(
    alloc: Global,
    text: &[u8],
    room: u32,
    at: usize,
    tokens: &'a [Token],
) -> Reading<'a, Expr>
    ensures { Gives (λ x. (x.0, x.1.now)) result
        (bracketed text.now (reads_in text.now room) at tokens.now) }
{
    if has_mark(Symbol::CloseBracket, tokens) {
        return Ok((
            Expr {
                form: Form::Unit,
                at,
            },
            after(tokens),
        ));
    }
    let (inner, rest) = whole(alloc, text, room, tokens)?;
    let rest = expect(text, Symbol::CloseBracket, rest)?;
    Ok((inner, rest))
}
