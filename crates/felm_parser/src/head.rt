//! What stands first in a list of tokens.
ghost use Rattle.std.specs.Prelude.{◌≡◌, ◌≢◌, ◌≤◌, IfSome, IfErr, Some, drop};
ghost use Rattle.felm_parser.specs.Gives.{Gives, fault_of};
ghost use Rattle.felm_reading.specs.Reading.{place, has_mark, has_word, starts_atom, lift_at, starts_operand, starts_expr, starts_type, refused, expect, expect_word, operator_at, comparison_at};

use crate::fault::ParseFault;
use crate::kinds::{comparison, is_keyword, is_mark, kind_starts_atom, lift_count, operator};
use felm_lexer::{Symbol, Token, WordKind};
use felm_syntax::Level;
use felm_term::Op;

/// What was read and the tokens behind it, or else the fault.
pub type Reading<'a, T> = Result<(T, &'a [Token]), ParseFault>;

/// The first token's place, or where the text stops.
pub fn place(text: &[u8], tokens: &[Token]) -> usize
    ensures { result ≡ place text.now tokens.now }
{
    match tokens {
        [] => text.len(),
        [first, ..] => first.start,
    }
}

/// The tokens behind the first one.
pub fn after(tokens: &[Token]) -> &[Token]
    ensures { result.now ≡ drop 1 tokens.now }
{
    match tokens {
        [] => tokens,
        [_, rest @ ..] => rest,
    }
}

/// Whether this symbol stands first.
pub fn has_mark(symbol: Symbol, tokens: &[Token]) -> bool
    ensures { result ≡ has_mark symbol tokens.now }
{
    match tokens {
        [] => false,
        [first, ..] => is_mark(symbol, first.kind),
    }
}

/// Whether this keyword stands first.
pub fn has_word(word: WordKind, tokens: &[Token]) -> bool
    ensures { result ≡ has_word word tokens.now }
{
    match tokens {
        [] => false,
        [first, ..] => is_keyword(word, first.kind),
    }
}

/// Whether an atom may begin here.
pub fn starts_atom(tokens: &[Token]) -> bool
    ensures { result ≡ starts_atom tokens.now }
{
    match tokens {
        [] => false,
        [first, ..] => kind_starts_atom(first.kind),
    }
}

/// How many signals the lift takes that stands first.
pub fn lift_at(tokens: &[Token]) -> Option<u32>
    ensures value { result ≡ lift_at tokens.now }
    ensures bound { IfSome result (λ count. count ≤ 9) }
{
    match tokens {
        [] => None,
        [first, ..] => lift_count(first.kind),
    }
}

/// The operator of a level that stands first.
pub fn operator_at(level: Level, tokens: &[Token]) -> Option<Op>
    ensures { result ≡ operator_at level tokens.now }
{
    match tokens {
        [] => None,
        [first, ..] => operator(level, first.kind),
    }
}

/// The comparison that stands first.
pub fn comparison_at(tokens: &[Token]) -> Option<Op>
    ensures { result ≡ comparison_at tokens.now }
{
    match tokens {
        [] => None,
        [first, ..] => comparison(first.kind),
    }
}

/// Whether an operand may begin here.
pub fn starts_operand(tokens: &[Token]) -> bool
    ensures { result ≡ starts_operand tokens.now }
{
    let is_lift = lift_at(tokens).is_some();
    starts_atom(tokens)
        || has_mark(Symbol::Minus, tokens)
        || has_word(WordKind::Foldp, tokens)
        || has_word(WordKind::Async, tokens)
        || is_lift
}

/// Whether an expression may begin here.
pub fn starts_expr(tokens: &[Token]) -> bool
    ensures { result ≡ starts_expr tokens.now }
{
    starts_operand(tokens)
        || has_mark(Symbol::Backslash, tokens)
        || has_word(WordKind::Let, tokens)
        || has_word(WordKind::If, tokens)
}

/// Whether a type may begin here.
pub fn starts_type(tokens: &[Token]) -> bool
    ensures { result ≡ starts_type tokens.now }
{
    has_word(WordKind::Int, tokens)
        || has_word(WordKind::Unit, tokens)
        || has_word(WordKind::Signal, tokens)
        || has_mark(Symbol::OpenBracket, tokens)
}

/// The fault of a token for which there is no room left: its nesting, if it may stand there.
pub fn refused(text: &[u8], may_stand: bool, tokens: &[Token]) -> ParseFault
    ensures { fault_of result ≡ Some (refused text.now may_stand tokens.now) }
{
    let at = place(text, tokens);
    if may_stand {
        ParseFault::Depth { at }
    } else {
        ParseFault::Syntax { at }
    }
}

/// The tokens behind a symbol that must stand first.
#[tactic(auto, unfolding(felm_reading::specs::Reading::expect))]
pub fn expect<'a>(
    text: &[u8],
    symbol: Symbol,
    tokens: &'a [Token],
) -> Result<&'a [Token], ParseFault>
    ensures reads { Gives (λ rest. rest.now) result (expect text.now symbol tokens.now) }
    ensures not_memory { IfErr result (λ fault. fault ≢ ParseFault.Memory) }
{
    if has_mark(symbol, tokens) {
        Ok(after(tokens))
    } else {
        Err(ParseFault::Syntax {
            at: place(text, tokens),
        })
    }
}

/// The tokens behind a keyword that must stand first.
#[tactic(auto, unfolding(felm_reading::specs::Reading::expect_word))]
pub fn expect_word<'a>(
    text: &[u8],
    word: WordKind,
    tokens: &'a [Token],
) -> Result<&'a [Token], ParseFault>
    ensures reads { Gives (λ rest. rest.now) result (expect_word text.now word tokens.now) }
    ensures not_memory { IfErr result (λ fault. fault ≢ ParseFault.Memory) }
{
    if has_word(word, tokens) {
        Ok(after(tokens))
    } else {
        Err(ParseFault::Syntax {
            at: place(text, tokens),
        })
    }
}
