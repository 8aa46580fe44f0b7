//! The lines of schedule and choices texts.
#![tactic(auto)]

mod laws;
mod line;
mod numbers;
mod parts;
mod read;
mod write;

pub use laws::{lines, lines_are_cut};
pub use line::{Line, Process};
pub use numbers::number_in;
pub use read::{first_line, read_line};
pub use write::{put_line, put_process};
