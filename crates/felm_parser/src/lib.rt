//! A parser by recursive descent: the program that a text's tokens are.
//!
//! The grammar and the limit on nesting stand in `felm_syntax`. Each function here is proved
//! against a function on lists of tokens of `felm_reading`, whose laws tie it to the grammar.
#![tactic(auto)]

mod declarations;
mod expressions;
mod fault;
mod head;
mod kinds;
mod names;
mod numbers;
mod parts;
mod program;
#[cfg(test)]
mod tests;
mod types;

pub use fault::ParseFault;
pub use program::parse;
