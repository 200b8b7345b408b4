//! Programs as they are written: spanned expressions and declared inputs, and the grammar.
//!
//! The grammar stands in `specs/` as a relation from whole lists of tokens to programs: `Grammar`
//! has its rules, `Nesting` says how deeply tokens nest, and `ProgramText` which texts are programs.
#![tactic(auto)]

mod expr;
mod inputs;
mod level;
mod program;

pub use expr::{Expr, Exprs, ExprsForm, Form, RawTy};
pub use inputs::{Declared, InputMap};
pub use level::Level;
pub use program::Program;
