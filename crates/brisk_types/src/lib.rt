//! Types programs and sequential programs: names, kinds, channels and loops, with the token of the first failure.
#![tactic(auto)]

mod agreement;
mod count;
mod declarations;
mod expressions;
mod fault;
mod globals;
mod index;
mod laws;
mod messages;
mod names;
mod places;
mod processes;
mod programs;
mod sequences;
mod statements;

pub use agreement::{agreed, seq_agreed, seq_within, within};
pub use fault::TypeFault;
pub use laws::{counted, seq_counted};
pub use programs::{check, check_seq};
