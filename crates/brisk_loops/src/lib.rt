//! The rules in code: a walk that applies them one by one, and whether a derivation is valid.
#![tactic(auto)]

mod acceptance;
mod close;
mod copies;
mod enter;
mod fault;
mod heads;
mod laws;
mod leave;
mod pieces;
mod rest;
mod rule;
mod walk;

pub use acceptance::accept;
pub use brisk_rules::Why;
pub use close::{Loop, Owner, is_owner, looks_at};
pub use fault::AcceptFault;
pub use laws::{back_undoes, kept_derives, walk_applies, walk_derives, walk_is_valid};
pub use leave::Closing;
pub use walk::{Walk, rule_of};
