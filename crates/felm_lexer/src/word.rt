//! Words: keywords and names.
ghost use Rattle.std.specs.Prelude.{◌≡◌};
ghost use Rattle.std.specs.List.{list_all};
ghost use Rattle.felm_term.specs.Bytes.{is_word_byte};
ghost use Rattle.felm_lexer.specs.Spellings.{is_name, is_word, keyword_of};

use crate::kind::WordKind;
use felm_term::bytes::{is_letter, is_word_byte};

/// The keyword or reserved keyword with this spelling.
#[tactic(auto, unfolding(crate::specs::Spellings::keyword_of, crate::specs::Spellings::keywords))]
pub fn keyword(text: &[u8]) -> Option<WordKind>
    ensures { result ≡ keyword_of text.now }
{
    match text {
        b"input" => Some(WordKind::Input),
        b"main" => Some(WordKind::Main),
        b"let" => Some(WordKind::Let),
        b"in" => Some(WordKind::In),
        b"if" => Some(WordKind::If),
        b"then" => Some(WordKind::Then),
        b"else" => Some(WordKind::Else),
        b"int" => Some(WordKind::Int),
        b"unit" => Some(WordKind::Unit),
        b"signal" => Some(WordKind::Signal),
        b"foldp" => Some(WordKind::Foldp),
        b"async" => Some(WordKind::Async),
        b"lift1" => Some(WordKind::Lift1),
        b"lift2" => Some(WordKind::Lift2),
        b"lift3" => Some(WordKind::Lift3),
        b"lift4" => Some(WordKind::Lift4),
        b"lift5" => Some(WordKind::Lift5),
        b"lift6" => Some(WordKind::Lift6),
        b"lift7" => Some(WordKind::Lift7),
        b"lift8" => Some(WordKind::Lift8),
        b"lift9" => Some(WordKind::Lift9),
        b"merge" => Some(WordKind::Merge),
        b"sampleOn" => Some(WordKind::SampleOn),
        b"dropRepeats" => Some(WordKind::DropRepeats),
        b"keepIf" => Some(WordKind::KeepIf),
        b"output" => Some(WordKind::Output),
        _ => None,
    }
}

/// Whether a text is a name: a letter or `_`, then letters, digits and `_`, and no keyword or
/// reserved keyword.
pub fn is_name(text: &[u8]) -> bool
    ensures { result ≡ is_name text.now }
{
    is_word(text) && keyword(text).is_none()
}

fn are_word_bytes(text: &[u8]) -> bool
    ensures { result ≡ list_all is_word_byte text.now }
{
    text.iter().all(|byte| is_word_byte(*byte))
}

/// Whether a text is spelled as a name or a keyword is.
fn is_word(text: &[u8]) -> bool
    ensures { result ≡ is_word text.now }
{
    match text {
        [] => false,
        [first, rest @ ..] => is_letter(*first) && are_word_bytes(rest),
    }
}
