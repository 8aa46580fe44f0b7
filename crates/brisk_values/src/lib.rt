//! Names, values, processes and stores: what programs compute with.
#![tactic(auto)]

mod instance;
mod lists;
mod memory;
mod name;
mod operation;
mod store;
mod value;

pub use instance::{Input, Inputs, Instance, Sizes};
pub use lists::Values;
pub use memory::NoMemory;
pub use name::{Name, same_name};
pub use operation::{Op1, Op2, apply1, apply2, wrap};
pub use store::Store;
pub use value::{Kind, Pid, Value, kind_of, same_kind};
