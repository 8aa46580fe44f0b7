//! Folders and sinks in memory, whose calls fail as planned.
ghost use Rattle.std.specs.Prelude.{Some, ◌≡◌, ◌≤◌, ◌<◌, ◌-◌, ◌||◌, ◌&&◌, nat_lt, nat_eq, [], min, length, take, drop, IfOk, is_err, ◌↔◌, IsTrue};
ghost use Rattle.std.specs.Option.{option_copied};
ghost use Rattle.brisk_io.specs.Causes.{ReadCause, ReadTold, WriteCause, WriteTold};
ghost use Rattle.brisk_io.specs.Files.{content};
ghost use Rattle.brisk_io.specs.Plans.{fails, counted, fits, Taken};

use crate::faults::{FolderFault, SinkFault};
use crate::traits::{Folder, Sink};
use brisk_values::NoMemory;
use std::alloc::Global;
use std::marker::Model;

/// A file in memory. Of two files with one name the first counts.
#[derive(Drop)]
pub struct File {
    pub name: String,
    pub bytes: Vec<u8>,
}

/// A folder in memory. Its k-th call fails where the k-th item of `plan` is true; a call past the plan's end doesn't.
/// `calls` counts the calls up to the plan's length.
#[derive(Drop)]
pub struct MemFolder {
    pub files: Vec<File>,
    pub plan: Vec<bool>,
    pub calls: usize,
    pub misses: u64,
    pub faults: u64,
}

impl Folder for MemFolder {
    ghost files = { λ f. Some (content f.files.items) };

    ghost misses = { λ f. f.misses };

    ghost faults = { λ f. f.faults };

    fn read_at(&mut self, name: &str, at: u64, piece: &mut [u8]) -> Result<usize, FolderFault>
        ensures bound { IfOk result (λ n. n ≤ length piece.old) }
        ensures files { self.new.files.items ≡ self.old.files.items }
        ensures misses { self.old.misses ≤ self.new.misses }
        ensures faults { self.old.faults ≤ self.new.faults }
        ensures cause { ReadCause self.old.misses self.new.misses self.old.faults self.new.faults result }
        ensures told { ReadTold (content self.old.files.items name.now) at result piece.new }
        ensures fails { (result ≡ Err FolderFault.Failed) ↔ IsTrue (fails self.old.plan.items self.old.calls) }
        ensures counted { self.new.calls ≡ counted self.old.plan.items self.old.calls }
    {
        if next_fails(&mut self.calls, &self.plan) {
            self.faults = self.faults.saturating_add(1);
            return Err(FolderFault::Failed);
        }
        match find(&self.files, name) {
            Some(bytes) => Ok(copy_at(bytes, at, piece)),
            None => {
                self.misses = self.misses.saturating_add(1);
                Err(FolderFault::Missing)
            }
        }
    }
}

// Whether this call fails by the plan; counts it.
fn next_fails(calls: &mut usize, plan: &[bool]) -> bool
    ensures fails { result ≡ fails plan.now calls.old }
    ensures counted { calls.new ≡ counted plan.now calls.old }
{
    let fails = plan.get(*calls).copied().unwrap_or(false);
    if *calls < plan.len() {
        *calls += 1;
    }
    fails
}

/// The bytes of the first file that has the name.
pub fn find<'a>(files: &'a [File], name: &str) -> Option<&'a [u8]>
    ensures { option_copied result ≡ content files.now name.now }
{
    for file in files {
        if file.name.as_str() == name {
            return Some(&file.bytes);
        }
    }
    None
}

/// Copies as many bytes from `at` on as there are and as the piece has room for, and answers their number.
pub fn copy_at(bytes: &[u8], at: u64, piece: &mut [u8]) -> usize
    ensures count { result ≡ min (length piece.old) (length bytes.now - at) }
    ensures front { take result piece.new ≡ take result (drop at bytes.now) }
{
    let Ok(at) = usize::try_from(at) else {
        return 0;
    };
    if at >= bytes.len() {
        return 0;
    }
    let rest = &bytes[at..];
    let n = rest.len().min(piece.len());
    piece[..n].copy_from_slice(&rest[..n]);
    n
}

/// A sink in memory. It takes its whole room at once, so that a write takes no memory.
#[derive(Drop)]
pub struct MemSink {
    taken: Vec<u8>,
    room: usize,
    piece: usize,
    plan: Vec<bool>,
    calls: usize,
    faults: u64,
}

impl Model for MemSink {
    ghost use Rattle.std.specs.Prelude.{◌≤◌, vec_capacity};
    ghost use Rattle.brisk_io.specs.Plans.{Taken};

    ghost Value = { Taken };

    ghost view = { λ s. record { bytes = s.taken.items; room = s.room; piece = s.piece; plan = s.plan.items; calls = s.calls; faults = s.faults } };

    ghost invariant = { λ s. s.room ≤ vec_capacity s.taken };
}

impl MemSink {
    /// A sink with room for so many bytes. A write takes at most `piece` bytes, where 0 counts as 1. It fails where
    /// the plan says so, as in `MemFolder`, and where the room is full and there is something to take.
    pub fn new(
        alloc: Global,
        room: usize,
        piece: usize,
        plan: Vec<bool>,
    ) -> Result<MemSink, NoMemory>
        ensures { IfOk result (λ s. s ≡ record { bytes = []; room = room; piece = piece; plan = plan.items; calls = 0; faults = 0 }) }
    {
        Ok(MemSink {
            taken: Vec::with_capacity(alloc, room)?,
            room,
            piece,
            plan,
            calls: 0,
            faults: 0,
        })
    }

    /// What was taken.
    pub fn written(&self) -> &[u8]
        ensures { result.now ≡ self.now.bytes }
    {
        &self.taken
    }
}

impl Sink for MemSink {
    ghost written = { λ s. Some s.bytes };

    ghost faults = { λ s. s.faults };

    fn write(&mut self, bytes: &[u8]) -> Result<usize, SinkFault>
        ensures faults { self.old.faults ≤ self.new.faults }
        ensures cause { WriteCause self.old.faults self.new.faults bytes.now result }
        ensures told { WriteTold (Some self.old.bytes) (Some self.new.bytes) bytes.now result }
        ensures fails { is_err result ≡ (fails self.old.plan self.old.calls || (nat_eq (fits self.old bytes.now) 0 && nat_lt 0 (length bytes.now))) }
        ensures count { IfOk result (λ n. n ≡ fits self.old bytes.now) }
        ensures counted { self.new.calls ≡ counted self.old.plan self.old.calls }
        ensures same { (self.new.room ≡ self.old.room) × (self.new.piece ≡ self.old.piece) × (self.new.plan ≡ self.old.plan) }
    {
        let left = self.room.saturating_sub(self.taken.len());
        let n = bytes.len().min(self.piece.max(1)).min(left);
        let planned = next_fails(&mut self.calls, &self.plan);
        if planned || (n == 0 && !bytes.is_empty()) {
            self.faults = self.faults.saturating_add(1);
            return Err(SinkFault::Failed);
        }
        self.taken.extend_from_slice(&bytes[..n]).unwrap();
        Ok(n)
    }
}
