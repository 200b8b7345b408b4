mod outside;
mod programs;
mod refusals;
mod runs;
mod texts;
