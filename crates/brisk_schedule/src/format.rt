//! The two kinds of text.

/// What a text holds: a schedule of processes, or choices of a sequential program.
#[derive(Clone, Copy, Debug, PartialEq, Eq)]
pub enum Format {
    Schedule,
    Choices,
}
