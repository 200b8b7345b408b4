//! Stage one: a program's term is reduced, with its signals shared, and laid out as a graph.
#![tactic(auto)]

mod climb;
mod contract;
mod enter;
mod frame;
mod part;
mod reduction;
mod search;
mod stage;

pub use stage::{Staged, stage_one};
