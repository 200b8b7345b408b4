//! Names.
ghost use Rattle.std.specs.Prelude.{◌≡◌, ◌≢◌, IfErr};
ghost use Rattle.std.specs.Option.{option_map};
ghost use Rattle.felm_syntax.specs.Kinds.{name_of};
ghost use Rattle.felm_parser.specs.Gives.{Gives};
ghost use Rattle.felm_reading.specs.Reading.{name};

use crate::fault::ParseFault;
use crate::head::Reading;
use felm_lexer::{Token, TokenKind, is_name};

/// The name that a token is: its slice of the text, if that lies within it and is a name.
#[tactic(auto, unfolding(felm_syntax::specs::Kinds::name_of))]
pub fn name_of<'a>(text: &'a [u8], token: &Token) -> Option<&'a str>
    ensures { option_map (λ name. name.now) result ≡ name_of text.now token.now }
{
    let TokenKind::Name = token.kind else {
        return None;
    };
    let spelling = text.get(token.start..token.end)?;
    if !is_name(spelling) {
        return None;
    }
    str::from_utf8(spelling).ok()
}

/// The name that must stand first, and the tokens behind it.
#[tactic(auto, unfolding(felm_reading::specs::Reading::name))]
pub fn name<'a, 'b>(text: &'a [u8], tokens: &'b [Token]) -> Reading<'b, &'a str>
    ensures reads { Gives (λ x. (x.0.now, x.1.now)) result (name text.now tokens.now) }
    ensures not_memory { IfErr result (λ fault. fault ≢ ParseFault.Memory) }
{
    let [first, rest @ ..] = tokens else {
        return Err(ParseFault::Syntax { at: text.len() });
    };
    match name_of(text, first) {
        Some(name) => Ok((name, rest)),
        None => Err(ParseFault::Syntax { at: first.start }),
    }
}
