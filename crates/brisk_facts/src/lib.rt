//! What is known of the variables of processes while a program is rewritten.
#![tactic(auto)]

mod facts;
mod fold;
mod laws;
mod learn;
#[cfg(test)]
mod tests;

pub use facts::Facts;
pub use laws::fold_is_value;
