//! Programs.

use crate::expr::Expr;
use crate::inputs::InputMap;

/// A program: its inputs in the order of declaration, and the expression of `main`.
#[derive(Drop)]
pub struct Program {
    pub inputs: InputMap,
    pub main: Expr,
}
