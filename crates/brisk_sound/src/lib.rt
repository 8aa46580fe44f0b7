//! The rules are sound: what is derived does what the processes do.
#![tactic(auto)]

mod laws;
mod small_programs;

pub use laws::{
    ends_are_done, no_bad_box, unfolding_reaches_the_store, valid_is_faithful, valid_is_well_typed,
};
pub use small_programs::{derivations, examples, reports};
