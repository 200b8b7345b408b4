//! The checker of types: a program has a type, or a first fault with its place.
#![tactic(auto)]

mod checked;
mod checking;
mod fault;
mod judge;
pub mod laws;
mod lift;
mod names;
mod scope;
#[cfg(test)]
mod tests;
mod whole;

pub use checked::Checked;
pub use checking::check;
pub use fault::TypeFault;
