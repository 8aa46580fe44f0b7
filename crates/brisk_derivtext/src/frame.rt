//! What stands around the steps of a text.
use crate::line::Format;
use crate::part::Part;
use brisk_values::Name;

/// What the lines so far have told besides steps.
#[derive(Drop)]
pub struct Frame {
    /// None before the head was read.
    pub format: Option<Format>,
    /// The parts that have ended, the last one last.
    pub parts: Vec<Part>,
    /// The name of the part that is being read.
    pub part: Option<Name>,
    /// Whether a line of the main steps was read.
    pub main: bool,
    /// Whether the end was read.
    pub ended: bool,
}
