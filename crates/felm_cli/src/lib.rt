//! The top call: from words and the bytes of files to the bytes of a result.
#![tactic(auto)]

mod call;
mod ended;
mod laws;
mod once;
mod over_sure;
mod run;
mod texts;
mod words;

pub use call::felm;
pub use felm_printer::{
    ScriptCause, StageCause, Status, SyntaxCause, TypingCause, Which, put_fault,
};
pub use laws::texts_come_to_one_end;
pub use once::felm_once;
pub use over_sure::felm_over_sure;

#[cfg(test)]
mod tests;
