//! The drill: a program for each number, to try the search at its size.
#![tactic(auto)]

mod drill;
#[cfg(test)]
mod tests;
mod texts;

pub use drill::drill_text;
pub use texts::drill_texts;
