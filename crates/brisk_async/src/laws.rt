//! What schedules do: laws of the machine, which hold for all programs, states and schedules. The functions do nothing.

ghost use Rattle.brisk_async.specs.Laws.{RunAppends, Diamond, OneEvent, Front, NamedHead, NamedBack};
ghost use Rattle.brisk_async.specs.Kinds.{KindsHold};

/// To run two lists of events is to run the one and then the other.
pub fn run_appends()
    ensures { RunAppends }
{}

/// Enabled events of two processes stay enabled after each other, and lead to the same state in either order.
pub fn diamond()
    ensures { Diamond }
{}

/// A process whose head is no receive from any, and no receive on a loose channel, has one event.
pub fn one_event()
    ensures { OneEvent }
{}

/// In a schedule to a terminal state an enabled event without sender and place can be moved to the front.
pub fn front()
    ensures { Front }
{}

/// Where a process stands at a receive from any, a schedule to a terminal state takes some member's message or waits.
pub fn named_head()
    ensures { NamedHead }
{}

/// A schedule from where the receive names a member leads to the same end from where it names none.
pub fn named_back()
    ensures { NamedBack }
{}

/// In every reachable state of a well-typed program each stored value and each payload has its kind.
pub fn kinds_hold()
    ensures { KindsHold }
{}
