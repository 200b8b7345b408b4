//! Rows that were worked by hand.
mod edges;
mod engines;
mod examples;
mod moves;
mod orders;
mod plain;
mod plans;
mod sessions;
mod texts;
mod turns;
