//! The rules of rewriting, and what a derivation by them and a report of its failure are.
#![tactic(auto)]

mod why;

pub use why::Why;
