//! Plans from texts, for rows that were worked by hand: a program, a script, and what they come to. The tests of this crate are
//! those of stage one, the meaning, the run and the texts.
#![tactic(auto)]

mod fixture;
#[cfg(test)]
mod tests;

pub use fixture::plan_of_texts;
