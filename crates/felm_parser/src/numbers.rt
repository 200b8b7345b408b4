//! Numbers.
ghost use Rattle.std.specs.Prelude.{◌≡◌, ◌≢◌, IfErr};
ghost use Rattle.felm_syntax.specs.Kinds.{unsigned_number, negated};
ghost use Rattle.felm_parser.specs.Gives.{Gives};
ghost use Rattle.felm_reading.specs.Reading.{numeral, literal};

use crate::fault::ParseFault;
use crate::head::{Reading, after, has_mark};
use crate::kinds::{negated, unsigned_number};
use felm_lexer::{Symbol, Token};

/// The number that must stand first, and the tokens behind it.
#[tactic(auto, unfolding(felm_reading::specs::Reading::numeral))]
fn unsigned_numeral<'a>(text: &[u8], tokens: &'a [Token]) -> Reading<'a, i64>
    ensures reads { Gives (λ x. (x.0, x.1.now)) result (numeral unsigned_number text.now tokens.now) }
    ensures not_memory { IfErr result (λ fault. fault ≢ ParseFault.Memory) }
{
    let [first, rest @ ..] = tokens else {
        return Err(ParseFault::Syntax { at: text.len() });
    };
    match unsigned_number(first.kind) {
        Some(number) => Ok((number, rest)),
        None => Err(ParseFault::Syntax { at: first.start }),
    }
}

/// The negative of the number that must stand first, and the tokens behind it.
#[tactic(auto, unfolding(felm_reading::specs::Reading::numeral))]
pub fn negated_numeral<'a>(text: &[u8], tokens: &'a [Token]) -> Reading<'a, i64>
    ensures reads { Gives (λ x. (x.0, x.1.now)) result (numeral negated text.now tokens.now) }
    ensures not_memory { IfErr result (λ fault. fault ≢ ParseFault.Memory) }
{
    let [first, rest @ ..] = tokens else {
        return Err(ParseFault::Syntax { at: text.len() });
    };
    match negated(first.kind) {
        Some(number) => Ok((number, rest)),
        None => Err(ParseFault::Syntax { at: first.start }),
    }
}

/// A literal of a number.
#[tactic(auto, unfolding(felm_reading::specs::Reading::literal))]
pub fn literal<'a>(text: &[u8], tokens: &'a [Token]) -> Reading<'a, i64>
    ensures reads { Gives (λ x. (x.0, x.1.now)) result (literal text.now tokens.now) }
    ensures not_memory { IfErr result (λ fault. fault ≢ ParseFault.Memory) }
{
    if has_mark(Symbol::Minus, tokens) {
        negated_numeral(text, after(tokens))
    } else {
        unsigned_numeral(text, tokens)
    }
}
