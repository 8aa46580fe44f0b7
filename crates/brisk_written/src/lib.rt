//! What is derived can be written, and its text determines it.
#![tactic(auto)]

mod laws;

pub use laws::{spellings_determine, valid_is_written};
