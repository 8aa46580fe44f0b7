//! Whole files in, whole texts out.
ghost use Rattle.std.specs.Prelude.{◌≡◌, ◌≤◌, ◌<◌, IfErr, IfOk, IfSome, length, vec_len, Err, Some};
ghost use Rattle.brisk_io.specs.Causes.{Rose};
ghost use Rattle.brisk_cli.specs.Answers.{IsTold, IsDue, IsUnreadable};
ghost use Rattle.brisk_cli.specs.Files.{IsWhole, IsPut};

use crate::answer::{Answer, Stopped};
use crate::status::Status;
use brisk_io::{Folder, FolderFault, Sink, SinkFault};
use std::alloc::Global;

/// Why a file isn't read.
#[derive(Clone, Copy, PartialEq, Eq)]
pub enum Unread {
    Missing,
    Failed,
    TooLong,
    NoMemory,
}

// The whole file, if it has no more bytes than the limit.
fn read_file<F: Folder>(
    alloc: Global,
    folder: &mut F,
    name: &str,
    limit: usize,
) -> Result<Vec<u8>, Unread>
    ensures missing { result ≡ Err Unread.Missing → Rose (F.misses folder.old) (F.misses folder.new) }
    ensures failed { result ≡ Err Unread.Failed → Rose (F.faults folder.old) (F.faults folder.new) }
    ensures told { IfSome (F.files folder.old) (λ files. IsWhole limit (files name.now) result) }
    ensures few { IfOk result (λ v. vec_len v ≤ limit) }
    ensures files { F.files folder.new ≡ F.files folder.old }
    ensures misses { F.misses folder.old ≤ F.misses folder.new }
    ensures faults { F.faults folder.old ≤ F.faults folder.new }
{
    let mut bytes = Vec::new(alloc);
    let mut piece = [0u8; 4096];
    while bytes.len() <= limit {
        match folder.read_at(name, bytes.len() as u64, &mut piece) {
            Ok(0) => return Ok(bytes),
            Ok(n) => match bytes.extend_from_slice(&piece[..n]) {
                Ok(()) => {}
                Err(_) => return Err(Unread::NoMemory),
            },
            Err(FolderFault::Missing) => return Err(Unread::Missing),
            Err(FolderFault::Failed) => return Err(Unread::Failed),
            Err(FolderFault::NoMemory) => return Err(Unread::NoMemory),
        }
    }
    Err(Unread::TooLong)
}

/// The whole file, if it has no more bytes than the limit. Otherwise its line is answered.
pub fn file<F: Folder>(
    alloc: Global,
    folder: &mut F,
    name: &str,
    limit: usize,
) -> Result<Vec<u8>, Stopped>
    ensures due { IfErr result (IsTold (λ status text. IsDue (F.misses folder.old) (F.misses folder.new) (F.faults folder.old) (F.faults folder.new) status)) }
    ensures told { IfSome (F.files folder.old) (λ files. IfErr result (IsTold (IsUnreadable (F.faults folder.old) (F.faults folder.new) limit name.now (files name.now)))) }
    ensures whole { IfSome (F.files folder.old) (λ files. IfOk result (λ v. files name.now ≡ Some v.items)) }
    ensures few { IfOk result (λ v. length v.items ≤ limit) }
    ensures files { F.files folder.new ≡ F.files folder.old }
    ensures misses { F.misses folder.old ≤ F.misses folder.new }
    ensures faults { F.faults folder.old ≤ F.faults folder.new }
{
    let (status, what) = match read_file(alloc, folder, name, limit) {
        Ok(bytes) => return Ok(bytes),
        Err(Unread::Missing) => (Status::NoFile, "Missing"),
        Err(Unread::Failed) => (Status::ReadFault, "Failed"),
        Err(Unread::TooLong) => (Status::BadInput, "TooLong"),
        Err(Unread::NoMemory) => return Err(Stopped::NoMemory),
    };
    Err(Stopped::Told(Answer::on_file(alloc, status, name, what)?))
}

/// Writes all the bytes, or some of their front. Takes no memory.
pub fn write_all<O: Sink>(out: &mut O, bytes: &[u8]) -> Result<(), SinkFault>
    ensures cause { result ≡ Err SinkFault.Failed → Rose (O.faults out.old) (O.faults out.new) }
    ensures put { IsPut (O.written out.old) (O.written out.new) bytes.now result }
{
    let mut done = 0;
    while done < bytes.len() {
        match out.write(&bytes[done..]) {
            Ok(n) => done += n,
            Err(fault) => return Err(fault),
        }
    }
    Ok(())
}
