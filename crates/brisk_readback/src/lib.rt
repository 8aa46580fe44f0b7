//! That layouts of programs are read back.
#![tactic(auto)]

mod laws;

pub use laws::{program_layouts, sequential_layouts};
