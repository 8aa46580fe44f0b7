//! What the program reads and where it writes: folders and sinks, in memory, quiet and real.
#![tactic(auto)]

mod faults;
mod memory;
mod quiet;
mod real;
mod traits;

pub use faults::{FolderFault, SinkFault};
pub use memory::{File, MemFolder, MemSink};
pub use quiet::{QuietFolder, QuietSink};
pub use real::{RealFolder, RealSink};
pub use traits::{Folder, Sink};
