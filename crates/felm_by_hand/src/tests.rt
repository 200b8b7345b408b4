//! Rows that were worked by hand.
mod graphs;
mod meanings;
mod nodes;
mod refusals;
mod runs;
mod statuses;
mod terms;
mod texts;
mod turns;
