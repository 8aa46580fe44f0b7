//! Cuts a text into tokens: names, reserved words, numbers and marks, each with the byte of its beginning.
#![tactic(auto)]

mod cut;
mod fault;
mod laws;
mod marks;
mod name;
mod scan;
mod text;
mod token;
mod words;

pub use fault::LexFault;
pub use laws::longest;
pub use name::name_in;
pub use text::tokens;
pub use token::{Mark, Placed, Token, Word};
