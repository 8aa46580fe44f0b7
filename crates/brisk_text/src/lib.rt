//! How values and numbers are written.
#![tactic(auto)]

mod values;

pub use values::{print_value, put, put_number, put_tag, put_truth, put_value};
