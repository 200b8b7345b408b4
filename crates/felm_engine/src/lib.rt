//! The pipelined engine and what workers see of it.
#![tactic(auto)]

mod answers;
mod bench;
mod claims;
mod crossing;
mod deposits;
mod dispatch;
mod engine;
mod heads;
mod history;
mod laws;
mod lists;
mod outputs;
mod queue;
mod sources;
mod waiting;

pub use answers::{Claim, Deposit, Entered, Fed, Stop};
pub use bench::Bench;
pub use crossing::engines_cross;
pub use engine::Engine;
pub use laws::{
    calls_are_moves, engines_follow_their_moves, engines_never_stick, journals_have_causes,
    reopening_all_is_a_run, settled_engines_have_room,
};
