//! The file system, and standard output.
ghost use Rattle.std.specs.Prelude.{None, ◌≡◌, ◌≤◌, IfOk, length};
ghost use Rattle.brisk_io.specs.Plans.{Counts};

use crate::faults::{FolderFault, SinkFault};
use crate::traits::{Folder, Sink};
use std::fs::File;
use std::io::{ErrorKind, Read, Seek, SeekFrom};
use std::marker::Model;
use std::rt::Files;

/// The files of the file system. Each read opens its file, seeks and reads once.
#[derive(Drop)]
pub struct RealFolder<'a, R: Files> {
    rt: &'a R,
    misses: u64,
    faults: u64,
}

impl<'a, R: Files> Model for RealFolder<'a, R> {
    ghost use Rattle.brisk_io.specs.Plans.{Counts};

    ghost Value = { Counts };

    ghost view = { λ f. record { misses = f.misses; faults = f.faults } };
}

impl<'a, R: Files> RealFolder<'a, R> {
    /// The folder in which the program runs, with its counts at 0.
    pub fn new(rt: &'a R) -> Self
        ensures { result ≡ record { misses = 0; faults = 0 } }
    {
        RealFolder {
            rt,
            misses: 0,
            faults: 0,
        }
    }
}

// Opens the file, seeks and reads once.
fn read_file<R: Files>(rt: &R, name: &str, at: u64, piece: &mut [u8]) -> std::io::Result<usize>
    ensures bound { IfOk result (λ n. n ≤ length piece.old) }
{
    let mut file = File::open(rt, name)?;
    file.seek(SeekFrom::Start(at))?;
    file.read(piece)
}

impl<'a, R: Files> Folder for RealFolder<'a, R> {
    ghost files = { λ _. None };

    ghost misses = { λ f. f.misses };

    ghost faults = { λ f. f.faults };

    fn read_at(&mut self, name: &str, at: u64, piece: &mut [u8]) -> Result<usize, FolderFault> {
        match read_file(self.rt, name, at, piece) {
            Ok(n) => Ok(n),
            Err(e) => match e.kind() {
                ErrorKind::NotFound => {
                    self.misses = self.misses.saturating_add(1);
                    Err(FolderFault::Missing)
                }
                ErrorKind::OutOfMemory => Err(FolderFault::NoMemory),
                _ => {
                    self.faults = self.faults.saturating_add(1);
                    Err(FolderFault::Failed)
                }
            },
        }
    }
}

/// Standard output. A write of 0 bytes, where there was one to take, counts as a fault.
#[derive(Drop)]
pub struct RealSink<'a, R: Print> {
    rt: &'a R,
    faults: u64,
}

impl<'a, R: Print> Model for RealSink<'a, R> {
    ghost use Rattle.std.specs.Prelude.{ℕ};

    ghost Value = { ℕ };

    ghost view = { λ s. s.faults };
}

impl<'a, R: Print> RealSink<'a, R> {
    /// Standard output, with its count at 0.
    pub fn new(rt: &'a R) -> Self
        ensures { result ≡ 0 }
    {
        RealSink { rt, faults: 0 }
    }
}

impl<'a, R: Print> Sink for RealSink<'a, R> {
    ghost written = { λ _. None };

    ghost faults = { λ s. s };

    fn write(&mut self, bytes: &[u8]) -> Result<usize, SinkFault> {
        match self.rt.write_some(bytes) {
            Ok(n) if n > 0 || bytes.is_empty() => Ok(n),
            _ => {
                self.faults = self.faults.saturating_add(1);
                Err(SinkFault::Failed)
            }
        }
    }
}
