//! Symbols.
ghost use Rattle.std.specs.Prelude.{◌≡◌, ◌∷◌, []};
ghost use Rattle.felm_lexer.specs.Spellings.{symbol_of};
ghost use Rattle.felm_lexer.specs.Beginnings.{symbol_of_front};

use crate::kind::Symbol;

/// The symbol of one byte.
#[tactic(auto, unfolding(crate::specs::Spellings::symbol_of, crate::specs::Spellings::symbols))]
pub fn symbol_of_one(byte: u8) -> Option<Symbol>
    ensures { result ≡ symbol_of (byte ∷ []) }
{
    match byte {
        b'\\' => Some(Symbol::Backslash),
        b':' => Some(Symbol::Colon),
        b'.' => Some(Symbol::Dot),
        b'=' => Some(Symbol::Equals),
        b'(' => Some(Symbol::OpenBracket),
        b')' => Some(Symbol::CloseBracket),
        b'+' => Some(Symbol::Plus),
        b'-' => Some(Symbol::Minus),
        b'*' => Some(Symbol::Star),
        b'%' => Some(Symbol::Percent),
        b'<' => Some(Symbol::Less),
        b'>' => Some(Symbol::Greater),
        _ => None,
    }
}

/// The symbol of two bytes.
#[tactic(auto, unfolding(crate::specs::Spellings::symbol_of, crate::specs::Spellings::symbols))]
fn symbol_of_two(first: u8, second: u8) -> Option<Symbol>
    ensures { result ≡ symbol_of (first ∷ second ∷ []) }
{
    match (first, second) {
        (b'-', b'>') => Some(Symbol::Arrow),
        (b'/', b'/') => Some(Symbol::DoubleSlash),
        (b'=', b'=') => Some(Symbol::DoubleEquals),
        (b'/', b'=') => Some(Symbol::SlashEquals),
        (b'<', b'=') => Some(Symbol::LessEquals),
        (b'>', b'=') => Some(Symbol::GreaterEquals),
        (b'&', b'&') => Some(Symbol::DoubleAmpersand),
        (b'|', b'|') => Some(Symbol::DoubleBar),
        _ => None,
    }
}

/// The symbol of a text's first two bytes.
pub fn symbol_of_front(text: &[u8]) -> Option<Symbol>
    ensures { result ≡ symbol_of_front text.now }
{
    match text {
        [first, second, ..] => symbol_of_two(*first, *second),
        _ => None,
    }
}
