//! Signal graphs, and the layout of a finished pair as one.
#![tactic(auto)]

mod arguments;
mod frame;
mod graph;
mod laws;
mod lay;
mod node;
mod pair;
mod reading;
mod typed;

pub use arguments::Arguments;
pub use graph::{Graph, MOST_NODES};
pub use laws::one_finish;
pub use node::{Node, NodeKind};
pub use pair::{Finished, Laid, layout};
pub use reading::{arguments_of, async_number, is_source};
