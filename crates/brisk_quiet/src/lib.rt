//! Whether a process is quiet until it hears from another.
#![tactic(auto)]

mod partner;
mod question;
mod quietness;
mod sender;
mod stillness;
mod taken;
#[cfg(test)]
mod tests;
mod unsent;
mod walk;

pub use quietness::quiet;
pub use sender::{Piece, sender_quiet};
pub use stillness::Stillness;
