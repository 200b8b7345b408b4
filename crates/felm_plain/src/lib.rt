//! The run of a plan on one thread.
#![tactic(auto)]

mod laws;
mod queue;
mod queues;
mod row;
mod run;

pub use laws::{
    complete_ends_are_complete, ends_are_exact, full_ends_are_full, one_end, runs_complete,
    stopped_ends_are_stopped,
};
pub use run::plain_run;
