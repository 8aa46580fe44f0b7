//! Instances of a program: whether one fits, how much it weighs, and the store in which it starts.
#![tactic(auto)]

mod fault;
mod fit;
mod laws;
mod start;
mod tokens;

pub use fault::StartFault;
pub use fit::{MOST_WEIGHT, is_of_kind, judge, least_members};
pub use laws::{fitting_is_ordered, ordered_fits};
pub use start::{members_of, start_store};
pub use tokens::weight;
