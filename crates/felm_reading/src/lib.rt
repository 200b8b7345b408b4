//! Reading the tokens of a program from left to right, and the laws that tie it to the grammar.
//!
//! The reading function stands in `specs/Reading`. It is a function on lists, between the grammar, which is a relation, and
//! the code that reads.
#![tactic(auto)]

pub mod laws;
