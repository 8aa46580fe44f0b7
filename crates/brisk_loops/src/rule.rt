//! A rule that a walk entered.
use brisk_derivation::Step;
use brisk_seq::Body;
use brisk_state::State;

/// Where a walk stands in a rule.
#[derive(Drop)]
pub(crate) enum Side {
    /// In its only premise, or in the first side of a branch.
    First,
    /// In the second side of a branch, with the state and the items at the end of the first.
    Second(State, Body),
}

/// A rule that was entered: its step without own steps, where the walk stands in it, and what stood before.
#[derive(Drop)]
pub(crate) struct Rule {
    pub(crate) step: Step,
    pub(crate) side: Side,
    pub(crate) state: State,
    pub(crate) items: Body,
    pub(crate) counted: u64,
}
