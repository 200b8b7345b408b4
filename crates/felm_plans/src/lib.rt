//! The plan of two texts: from the bytes of a program and of a script to what is run.
#![tactic(auto)]

mod faults;
mod laws;
mod plans;

pub use laws::{
    faulty_programs_are_untyped, faulty_texts_are_no_programs, texts_are_programs_or_faulty,
    texts_come_to_one_plan, texts_name_their_journals,
};
pub use plans::read_plan;
