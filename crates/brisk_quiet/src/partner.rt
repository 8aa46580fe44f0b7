//! How code names the receiver.
ghost use Rattle.std.specs.Prelude.{◌≡◌};
ghost use Rattle.brisk_quiet.specs.Quiet.{under as under_binder};
ghost use Rattle.brisk_state.specs.Symbolic.{is_partner as is_partner_of, partner_of, thread_named};

use brisk_state::{Mode, Thread};
use brisk_syntax::Who;
use brisk_values::Name;

// How other threads name the thread of this name: the members of a set that isn't in focus have no name.
pub(crate) fn partner(threads: &[Thread], name: &Name) -> Option<Who>
    ensures { result ≡ partner_of (thread_named threads.now name.now) }
{
    for thread in threads {
        if *name == thread.name {
            return match thread.mode {
                Mode::One => Some(Who::Name(thread.name)),
                Mode::At => Some(Who::At(thread.name)),
                Mode::Each => None,
            };
        }
    }
    None
}

// How code names the receiver where this name is a binder.
pub(crate) fn under(binder: &Name, receiver: &Option<Who>) -> Option<Who>
    ensures { result ≡ under_binder binder.now receiver.now }
{
    match receiver {
        Some(Who::Name(name)) if binder == name => None,
        _ => *receiver,
    }
}

// Whether the partner of a statement is the receiver.
pub(crate) fn is_partner(receiver: &Option<Who>, who: &Who) -> bool
    ensures { result ≡ is_partner_of receiver.now who.now }
{
    match (receiver, who) {
        (Some(Who::Name(a)), Who::Name(b)) => a == b,
        (Some(Who::At(a)), Who::At(b)) => a == b,
        _ => false,
    }
}
