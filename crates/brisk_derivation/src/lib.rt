//! Derivations: the trees of steps by which a program is rewritten, and reports of where this stops.
#![tactic(auto)]

mod count;
mod fault;
mod report;
mod steps;
#[cfg(test)]
mod tests;

pub use count::count_steps;
pub use fault::SideFault;
pub use report::{Report, Tries, Try, TryEnd};
pub use steps::{BasicStep, Drops, Fact, Step, Steps};
