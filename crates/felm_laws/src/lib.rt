//! Laws of typing, reduction and calls. Each function's contract states a law; its body does nothing.
#![tactic(auto)]

mod calls;
mod contexts;
mod instances;
mod outcomes;
mod pairs;
mod rows;
mod steps;
mod substitution;
mod types;

pub use calls::{call_computes, one_call};
pub use contexts::{shared_are_signals, types_stay};
pub use instances::{operators_worked_by_hand, runs_worked_by_hand};
pub use outcomes::{
    budgets_decide, ended_runs_are_longest, over_is_exact, runs_are_unique, values_are_unique,
    values_have_the_type,
};
pub use pairs::{programs_never_stick, steps_keep_shared_types, steps_share_at_most_one};
pub use rows::{rows_of_calls, rows_of_steps, rows_of_types};
pub use steps::{
    one_end, one_next_pair, pairs_never_stick, signal_terms_are_finished, signal_terms_stay,
    simple_terms_never_stick, steps_keep_types, steps_share_signal_terms, values_stay,
};
pub use substitution::{
    closed_terms_stay, outer_substitution_keeps_types, substitutions_commute, values_keep_types,
};
pub use types::{
    inputs_are_signals, one_type, simple_functions_are_values, simple_terms_name_no_signals,
    substitution_keeps_types, types_are_well_formed,
};
