//! Plain runs of programs, and the schedules that they give to show a refusal.
#![tactic(auto)]

mod deadlock;
mod instance;
mod overtaking;
mod plain;
mod runs;
mod standing;
mod watch;

pub use deadlock::to_deadlock;
pub use overtaking::to_overtaking;
