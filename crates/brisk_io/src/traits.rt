//! What folders and sinks promise.
ghost use Rattle.std.specs.Prelude.{◌≡◌, ◌≤◌, ℕ, List, Option, IfOk, IfSome, length};
ghost use Rattle.brisk_io.specs.Causes.{Files, ReadCause, ReadTold, WriteCause, WriteTold};

use crate::faults::{FolderFault, SinkFault};

/// Files that are read in pieces. It counts what goes wrong: its misses, where a file isn't there, and its faults.
/// A count never falls, and stays at the greatest `u64` once it has reached it.
pub trait Folder {
    /// The files, where they are told.
    ghost files: { Self → Option Files };

    ghost misses: { Self → ℕ };

    ghost faults: { Self → ℕ };

    /// Fills the piece's front with the file's bytes from `at` on, and answers their number. A `Missing` or `Failed`
    /// comes only where its count rose or stands at its last value.
    fn read_at(&mut self, name: &str, at: u64, piece: &mut [u8]) -> Result<usize, FolderFault>
        ensures bound { IfOk result (λ n. n ≤ length piece.old) }
        ensures files { files self.new ≡ files self.old }
        ensures misses { misses self.old ≤ misses self.new }
        ensures faults { faults self.old ≤ faults self.new }
        ensures cause { ReadCause (misses self.old) (misses self.new) (faults self.old) (faults self.new) result }
        ensures told { IfSome (files self.old) (λ f. ReadTold (f name.now) at result piece.new) };
}

/// Where bytes go. It counts its faults, as a `Folder` does.
pub trait Sink {
    /// What was written, where it is told.
    ghost written: { Self → Option (List ℕ) };

    ghost faults: { Self → ℕ };

    /// Takes some of the bytes' front, and answers how many: at least one, where there is one.
    fn write(&mut self, bytes: &[u8]) -> Result<usize, SinkFault>
        ensures faults { faults self.old ≤ faults self.new }
        ensures cause { WriteCause (faults self.old) (faults self.new) bytes.now result }
        ensures told { WriteTold (written self.old) (written self.new) bytes.now result };
}
