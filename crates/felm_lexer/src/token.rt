//! Tokens.

use crate::kind::TokenKind;
use felm_term::Items;

/// A token. Its text is the slice from `start` to `end`, which count bytes from 0.
#[derive(Clone, Copy, Debug, PartialEq, Eq)]
pub struct Token {
    pub kind: TokenKind,
    pub start: usize,
    pub end: usize,
}

/// Tokens in the order of the text.
pub type Tokens = Items<Token>;
