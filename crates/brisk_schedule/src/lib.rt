//! Schedules and choices: read, written and played on a machine, and the texts of how they end.
#![tactic(auto)]

mod events;
mod fault;
mod format;
mod instance;
mod laws;
mod lines;
mod played;
mod printed;
mod reading;
mod schedule;
mod writing;

pub use fault::ScheduleFault;
pub use format::Format;
pub use laws::{choices_differ, choices_stand, schedules_differ, schedules_stand};
pub use played::{Ended, Played, play};
pub use printed::{print_played, print_store};
pub use reading::{read, read_choices};
pub use schedule::{Choices, Events, Picks, Schedule};
pub use writing::write;
