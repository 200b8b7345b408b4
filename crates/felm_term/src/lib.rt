//! The core of the language: types, terms, values and messages, with their typing and reduction,
//! and what every layer shares: small lists, byte classes and decimal numbers.
#![tactic(auto)]

pub mod bytes;
pub mod decimal;
mod event;
mod function;
mod input;
mod limits;
mod list;
mod memory;
mod message;
mod name;
mod op;
pub mod rows;
mod scope;
mod substitution;
mod term;
#[cfg(test)]
mod tests;
mod ty;
mod typing;
mod value;

pub use event::{Event, Events, Script};
pub use function::{Function, same_function};
pub use input::{InputDecl, InputTy, Inputs};
pub use limits::Limits;
pub use list::Items;
pub use memory::{Memory, boxed};
pub use message::{Message, Messages};
pub use name::Name;
pub use op::{Op, apply_op};
pub use scope::Scope;
pub use substitution::{substitute, substitute_term};
pub use term::{Term, TermForm, Terms, TermsForm, same_term};
pub use ty::{Ty, TyForm, same_ty};
pub use typing::type_of;
pub use value::{Value, same_value};
