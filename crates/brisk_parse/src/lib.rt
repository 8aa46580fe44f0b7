//! Reads programs from their tokens.
#![tactic(auto)]

mod declarations;
mod expressions;
mod fault;
mod laws;
mod level;
mod lists;
mod reader;
mod roles;
mod sequences;
mod statements;

pub use fault::ParseFault;
pub use laws::limits;
pub use roles::program;
pub use sequences::sequential;
