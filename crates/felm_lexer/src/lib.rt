//! The tokens of a program's text.
//!
//! Blanks and comments stand between tokens, and elsewhere the longest token is taken. The rule
//! stands in `specs/`: `Spellings` says how tokens are spelled, `Fronts` with what a text may
//! begin, and `Readings` how a whole text is read.
#![tactic(auto)]

mod begin;
mod fault;
mod kind;
pub mod laws;
mod mark;
#[cfg(test)]
mod tests;
mod text;
mod token;
mod word;

pub use fault::LexFault;
pub use kind::{Symbol, TokenKind, WordKind};
pub use text::tokens;
pub use token::{Token, Tokens};
pub use word::{is_name, keyword};
