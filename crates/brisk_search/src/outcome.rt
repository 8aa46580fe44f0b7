//! What the search answers.
use brisk_derivation::{Report, Steps};
use brisk_loops::Walk;
use brisk_seq::SeqProgram;

/// What the search answers.
#[derive(Drop)]
pub enum Outcome {
    /// A derivation, and its sequential program.
    Sequenced(Steps, SeqProgram),
    /// Where the search is stuck.
    Stuck(Report),
    /// The budget is spent, on this walk.
    Budget(Walk),
}
