//! Declarations of inputs.
ghost use Rattle.std.specs.Prelude.{◌≡◌, ◌≢◌, false, bytes_eq, IfOk, IfErr};
ghost use Rattle.std.specs.List.{list_any};
ghost use Rattle.felm_term.specs.Inputs.{names_of};
ghost use Rattle.felm_syntax.specs.InputMap.{declaration as declared_input};
ghost use Rattle.felm_parser.specs.Gives.{Gives};
ghost use Rattle.felm_reading.specs.Reading.{new_name, int_input, unit_input, described, declaration};

use crate::fault::ParseFault;
use crate::head::{Reading, after, expect, has_word, place};
use crate::names::name;
use crate::numbers::literal;
use felm_lexer::{Symbol, Token, WordKind};
use felm_syntax::{Declared, InputMap};
use felm_term::InputTy;

/// A name that no input has so far. It is judged before what stands behind it.
#[tactic(auto, using(crate::proofs::Seen::seen), unfolding(felm_reading::specs::Reading::new_name))]
fn new_name<'a, 'b>(text: &'a [u8], seen: &InputMap, tokens: &'b [Token]) -> Reading<'b, &'a str>
    ensures reads { Gives (λ x. (x.0.now, x.1.now)) result (new_name text.now seen.now tokens.now) }
    ensures new { IfOk result (λ x. list_any (bytes_eq x.0.now) (names_of seen.now) ≡ false) }
    ensures not_memory { IfErr result (λ fault. fault ≢ ParseFault.Memory) }
{
    let (name, rest) = name(text, tokens)?;
    if seen.find(name).is_some() {
        return Err(ParseFault::Twice {
            at: place(text, tokens),
        });
    }
    Ok((name, rest))
}

/// What is declared of a name behind `int`.
#[tactic(auto, unfolding(felm_reading::specs::Reading::int_input))]
fn int_input<'a>(text: &[u8], name: &str, tokens: &'a [Token]) -> Reading<'a, Declared>
    ensures reads { Gives (λ x. (declared_input name.now x.0, x.1.now)) result
        (int_input text.now name.now tokens.now) }
    ensures not_memory { IfErr result (λ fault. fault ≢ ParseFault.Memory) }
{
    let rest = expect(text, Symbol::Equals, after(tokens))?;
    let (default, rest) = literal(text, rest)?;
    Ok((
        Declared {
            ty: InputTy::Int,
            default,
        },
        rest,
    ))
}

/// What is declared of a name behind `unit`.
#[tactic(auto, unfolding(felm_reading::specs::Reading::unit_input))]
fn unit_input<'a>(text: &[u8], name: &str, tokens: &'a [Token]) -> Reading<'a, Declared>
    ensures reads { Gives (λ x. (declared_input name.now x.0, x.1.now)) result
        (unit_input text.now name.now tokens.now) }
    ensures not_memory { IfErr result (λ fault. fault ≢ ParseFault.Memory) }
{
    let rest = expect(text, Symbol::Equals, after(tokens))?;
    let rest = expect(text, Symbol::OpenBracket, rest)?;
    let rest = expect(text, Symbol::CloseBracket, rest)?;
    Ok((
        Declared {
            ty: InputTy::Unit,
            default: 0,
        },
        rest,
    ))
}

/// What is declared of a name behind its colon.
#[tactic(auto, unfolding(felm_reading::specs::Reading::described))]
fn described<'a>(text: &[u8], name: &str, tokens: &'a [Token]) -> Reading<'a, Declared>
    ensures reads { Gives (λ x. (declared_input name.now x.0, x.1.now)) result
        (described text.now name.now tokens.now) }
    ensures not_memory { IfErr result (λ fault. fault ≢ ParseFault.Memory) }
{
    if has_word(WordKind::Int, tokens) {
        return int_input(text, name, tokens);
    }
    if has_word(WordKind::Unit, tokens) {
        return unit_input(text, name, tokens);
    }
    Err(ParseFault::Syntax {
        at: place(text, tokens),
    })
}

/// A declaration after those seen: the name, what is declared of it, and the tokens behind.
#[tactic(auto, unfolding(felm_reading::specs::Reading::declaration))]
pub fn declaration<'a, 'b>(
    text: &'a [u8],
    seen: &InputMap,
    tokens: &'b [Token],
) -> Result<(&'a str, Declared, &'b [Token]), ParseFault>
    ensures reads { Gives (λ x. (declared_input x.0.now x.1, x.2.now)) result
        (declaration text.now seen.now tokens.now) }
    ensures new { IfOk result (λ x. list_any (bytes_eq x.0.now) (names_of seen.now) ≡ false) }
    ensures not_memory { IfErr result (λ fault. fault ≢ ParseFault.Memory) }
{
    let (name, rest) = new_name(text, seen, after(tokens))?;
    let rest = expect(text, Symbol::Colon, rest)?;
    let (declared, rest) = described(text, name, rest)?;
    Ok((name, declared, rest))
}
