//! Reduction of a closed term of a simple type to its value, with the number of its steps.
#![tactic(auto)]

mod contract;
mod frame;
mod reduction;
mod search;
#[cfg(test)]
mod tests;

pub use reduction::{Reduced, reduce};
