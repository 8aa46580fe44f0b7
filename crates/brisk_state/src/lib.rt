//! Symbolic states: what is kept of all processes while a program is rewritten.
#![tactic(auto)]

mod boxes;
mod fault;
mod initial;
mod pending;
mod state;
#[cfg(test)]
mod tests;
mod thread;

pub use fault::FocusFault;
pub use pending::Pending;
pub use state::State;
pub use thread::{Mode, Thread};
