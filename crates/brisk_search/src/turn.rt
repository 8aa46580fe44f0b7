//! What comes of a turn and of a drive.
use brisk_derivation::{Drops, Step, Steps, Tries, Try, TryEnd};
use brisk_loops::Why;
use brisk_values::Name;

/// What comes of a turn.
#[derive(Drop)]
pub(crate) enum Turn {
    /// This step is made.
    Goes(Step),
    Stays,
    /// A rule is due, and none is left.
    Spent,
}

/// To what a drive comes.
#[derive(Drop)]
pub(crate) enum Driven {
    /// These steps lead to its goal.
    Reached(Steps),
    /// These steps lead to where it is stuck; and the tries of its last round.
    Stuck(Steps, Tries),
    /// A rule is due, and none is left.
    Spent,
}

/// What comes of one of a rule's tries.
#[derive(Drop)]
pub(crate) enum Came {
    /// There is no other try.
    To(Turn),
    /// Facts were lost: these are to be dropped in the next try.
    Losing(Drops),
}

/// A try that failed, and the thread at whose head it was made.
#[derive(Drop)]
pub(crate) struct Failed {
    pub(crate) at: Name,
    pub(crate) what: Try,
}

/// To what both sides of a branch come.
#[derive(Drop)]
pub(crate) enum Sided {
    /// These steps lead to the ends of both.
    Both(Steps, Steps),
    /// These are the steps of both, of which the last side begun is stuck.
    Stuck(Steps, Steps, TryEnd),
    /// A rule is due, and none is left.
    Spent,
}

/// What comes of a close.
#[derive(Clone, Copy)]
pub(crate) enum Left {
    Closed,
    Refused(Why),
    /// It is due, and no rule is left.
    Due,
}
