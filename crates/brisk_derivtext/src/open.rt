//! The rules that lines of steps have entered.
use crate::line::Loop;
use brisk_derivation::Steps;
use brisk_values::Name;

/// A rule that the lines have entered and not closed, with the steps before it in the rule around.
#[derive(Drop)]
pub enum Open {
    InLoop(Steps, Loop),
    /// A branch in whose first side the lines are.
    InFirst(Steps, Name),
    /// A branch in whose second side the lines are, and its first side.
    InSecond(Steps, Name, Steps),
}
