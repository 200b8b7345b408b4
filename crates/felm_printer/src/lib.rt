//! Texts: results, stopped runs, graphs, terms, and the lines of faults.
#![tactic(auto)]

mod fault;
mod graph;
mod laws;
mod result;
mod sign;
mod sources;
mod status;
mod term;
mod ty;

pub use fault::{put_fault, tell};
pub use graph::graph_text;
pub use laws::{result_texts_name_their_journals, stopped_texts_name_their_journals};
pub use result::{Closing, result_text, stopped_text, value_text};
pub use status::{ScriptCause, StageCause, Status, SyntaxCause, TypingCause, Which};
pub use term::term_text;
