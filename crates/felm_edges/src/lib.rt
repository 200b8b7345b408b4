//! The edges of a graph: for each port of each node a bounded list of messages, and for each node
//! the message that its readers will get next.
#![tactic(auto)]

mod edge;
mod edges;
mod making;
mod outlet;
mod ports;
mod readers;

pub use edges::Edges;
