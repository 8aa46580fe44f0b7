//! Events: what a process does next.
use brisk_values::Pid;

/// One statement step of a process. A sender is given exactly where its head is a receive from any, and a place exactly
/// where its head is a receive on a loose channel.
#[derive(Clone, Copy, Debug, PartialEq, Eq)]
pub struct Event {
    pub process: Pid,
    pub sender: Option<Pid>,
    /// The place of the payload that is taken, counted from 0 at the oldest.
    pub place: Option<u32>,
}
