//! Plans, turns and the synchronous meaning: what every signal is at every position of a journal.
#![tactic(auto)]

mod arguments;
mod call;
mod copies;
mod done;
mod equality;
mod history;
mod job;
mod laws;
mod outcome;
mod plan;
mod preset;
mod step;
mod turn;
mod turn_inputs;

pub use arguments::{Among, Arguments};
pub use done::{Done, compute};
pub use equality::{equal_jobs, equal_message_lists, equal_messages, equal_values, same_plan};
pub use history::{History, RunEnd};
pub use job::{Job, job_of};
pub use laws::{
    calls_are_by_reduction, causes_come_before, edges_hold_the_messages, events_follow_changes,
    legal_journals_fit, meaning_is_the_recursion, next_is_the_least, none_follows_none,
    only_the_meaning_is, only_the_plain_journal_does, plain_journal_grows, plain_journal_is_legal,
    prefixes_are_enough, runs_worked_by_hand, scripts_fit, turns_fit, values_have_their_types,
    what_ends_is_complete, without_asyncs_the_script_is,
};
pub use outcome::Outcome;
pub use plan::Plan;
pub use preset::{Preset, Values, defaults};
pub use step::{Step, foldp_step, is_change, lift_step};
pub use turn::Turn;
pub use turn_inputs::TurnInputs;
