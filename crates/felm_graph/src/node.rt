ghost use Rattle.std.specs.Prelude.{◌≡◌, ◌≤◌, IfOk, [], ◌∷◌};

use crate::arguments::Arguments;
use felm_term::{Ty, Value};

/// What a node does. Nodes are named by their numbers.
#[derive(Debug, Drop)]
pub enum NodeKind {
    /// Sends the events of the declared input with this number.
    Input {
        number: u32,
    },
    /// Applies a function to the values of its arguments.
    Lift {
        function: Value,
        arguments: Arguments,
    },
    /// Applies a function to its argument's value and its own previous one, which is the base at first.
    Foldp {
        function: Value,
        base: Value,
        argument: u32,
    },
    /// Sends each change of its argument as an event of its own.
    Async {
        argument: u32,
    },
}

/// A node of a signal graph.
#[derive(Debug, Drop)]
pub struct Node {
    pub kind: NodeKind,
    /// The simple type of its values.
    pub ty: Ty,
}
