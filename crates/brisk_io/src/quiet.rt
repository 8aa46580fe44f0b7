//! Folders and sinks that never fail.
ghost use Rattle.std.specs.Prelude.{Some, None, ◌≡◌, ◌≤◌, length};
ghost use Rattle.brisk_io.specs.Causes.{WriteCause, WriteTold};
ghost use Rattle.brisk_io.specs.Files.{content};

use crate::faults::{FolderFault, SinkFault};
use crate::memory::{File, copy_at, find};
use crate::traits::{Folder, Sink};

/// A folder in memory that never fails.
#[derive(Drop)]
pub struct QuietFolder {
    pub files: Vec<File>,
    pub misses: u64,
}

impl Folder for QuietFolder {
    ghost files = { λ f. Some (content f.files.items) };

    ghost misses = { λ f. f.misses };

    ghost faults = { λ _. 0 };

    fn read_at(&mut self, name: &str, at: u64, piece: &mut [u8]) -> Result<usize, FolderFault> {
        match find(&self.files, name) {
            Some(bytes) => Ok(copy_at(bytes, at, piece)),
            None => {
                self.misses = self.misses.saturating_add(1);
                Err(FolderFault::Missing)
            }
        }
    }
}

/// A sink that takes each piece whole, keeps nothing and never fails.
#[derive(Clone, Copy)]
pub struct QuietSink;

impl Sink for QuietSink {
    ghost written = { λ _. None };

    ghost faults = { λ _. 0 };

    fn write(&mut self, bytes: &[u8]) -> Result<usize, SinkFault>
        ensures faults { 0 ≤ 0 }
        ensures cause { WriteCause 0 0 bytes.now result }
        ensures told { WriteTold None None bytes.now result }
        ensures whole { result ≡ Ok (length bytes.now) }
    {
        Ok(bytes.len())
    }
}
