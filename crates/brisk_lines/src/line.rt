//! The lines of schedules and of choices.
use brisk_values::{Name, Value};

/// A process as a line names it: a role, or a member of a set by its number.
#[derive(Clone, Copy, Debug, PartialEq, Eq)]
pub struct Process {
    pub role: Name,
    pub member: Option<u32>,
}

/// A line of a schedule or of choices.
#[derive(Clone, Copy, Debug, PartialEq, Eq)]
pub enum Line {
    /// The head of a schedule.
    Schedule,
    /// The head of choices.
    Choices,
    /// A set and its size.
    Size(Name, u32),
    /// A process, one of its inputs and the value with which it starts.
    Input(Process, Name, Value),
    /// A process, the sender from which it takes, and the place in the queue.
    Event(Process, Option<Process>, Option<u32>),
    Turns(u64),
    Choose(u32),
    End,
}
