//! An unfolding so far.
ghost use Rattle.std.specs.Prelude.{◌≡◌, ◌++◌, ◌∷◌, [], OnOk};
ghost use Rattle.brisk_rules.specs.Unfolding.{carries, moves};
ghost use Rattle.brisk_unfold.specs.Going.{Marks, receives_at};

use crate::senders::Senders;
use brisk_async::Event;
use brisk_schedule::Events;
use brisk_seq::Running;
use brisk_values::{NoMemory, Pid};

/// An unfolding so far: the run, the events in order, and the senders that the next receives carry.
#[derive(Drop)]
pub(crate) struct Progress {
    pub(crate) run: Running,
    pub(crate) events: Events,
    pub(crate) senders: Senders,
}

// Adds an event.
fn add(
    events: &mut Events,
    process: Pid,
    sender: Option<Pid>,
    place: Option<u32>,
) -> Result<(), NoMemory>
    ensures { OnOk result (events.new ≡ events.old ++ record { process = process; sender = sender; place = place } ∷ []) }
{
    events.items.push(Event {
        process,
        sender,
        place,
    })?;
    Ok(())
}

impl Progress {
    /// The process takes an event without a sender.
    pub(crate) fn step(&mut self, process: Pid) -> Result<(), NoMemory>
        ensures { OnOk result (Marks self.old self.new (moves process)) }
    {
        add(&mut self.events, process, None, None)
    }

    /// The process receives at this place, and from its sender if it is to carry one.
    pub(crate) fn receive(&mut self, process: Pid, place: Option<u32>) -> Result<(), NoMemory>
        ensures { OnOk result (Marks self.old self.new (receives_at place process)) }
    {
        let sender = self.senders.take(&process);
        add(&mut self.events, process, sender, place)
    }

    /// The next receive of the process carries this sender.
    pub(crate) fn carry(&mut self, process: Pid, sender: Pid) -> Result<(), NoMemory>
        ensures { OnOk result (Marks self.old self.new (carries process sender)) }
    {
        self.senders.put(process, sender)
    }
}
