//! Tests of engines, edges and sessions that are driven by hand, over plans from texts: what each move answers is worked out before.
//! Sessions are driven in pseudo-random orders as well. It is a crate of its own, since a crate with tests is proved twice.
#![tactic(auto)]

#[cfg(test)]
mod tests;
