//! Sequential programs.
#![tactic(auto)]

mod boxes;
mod evaluator;
mod fault;
mod kinds;
mod program;
mod tree;

pub use boxes::Boxes;
pub use evaluator::{Running, Setting, process, unmarked};
pub use fault::SeqFault;
pub use program::run;
pub use tree::{Body, Fill, Pass, Seq, SeqProgram, Take};
