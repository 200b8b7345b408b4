//! Event scripts: the events that the outside sends to a program's inputs, a line for each.
//!
//! The rule stands in `specs/`: `Lines` says how a text is cut into lines and a line into fields,
//! and `Script` what a line says, and what all of them say together.
#![tactic(auto)]

mod fault;
mod fields;
pub mod laws;
mod line;
mod names;
mod script;
#[cfg(test)]
mod tests;

pub use fault::ScriptFault;
pub use script::read_script;
