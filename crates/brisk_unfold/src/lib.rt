//! The canonical schedule of a derivation: the events that its steps stand for, along a run of its sequential program.
#![tactic(auto)]

mod fault;
mod progress;
mod schedule;
mod senders;
#[cfg(test)]
mod tests;
mod unfolder;

pub use fault::UnfoldFault;
pub use schedule::unfold;
