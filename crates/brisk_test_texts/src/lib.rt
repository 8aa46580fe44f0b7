//! Programs of texts, for the tests of other crates.
#![tactic(auto)]

mod fault;
mod programs;
mod sequences;

pub use fault::TextFault;
pub use programs::{parsed_program, program_of};
pub use sequences::{parsed_sequence, sequence_of};
