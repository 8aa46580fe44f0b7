//! Tests of sequential programs that are run.
#![tactic(auto)]

#[cfg(test)]
mod runs;
