//! The layout of programs.
#![tactic(auto)]

mod declarations;
mod expressions;
mod lines;
mod pieces;
mod programs;
mod sequential;

pub use brisk_text::print_value;
pub use programs::{print_head, print_program};
pub use sequential::print_seq;
