//! Where in an open rule the lines stand.

/// The part of an open rule in which the next line stands.
#[derive(Clone, Copy, Debug, PartialEq, Eq)]
pub enum Side {
    /// The premise of a rule that has only this one.
    Premise,
    /// The first side of a branch.
    First,
    /// The second side of a branch.
    Second,
}
