//! What is kept of the processes of one role.
ghost use Rattle.std.specs.Prelude.{◌≡◌, true, IfOk, MatchOption};
ghost use lib.Pointwise.{pointwise};
ghost use Rattle.brisk_state.specs.Same.{same_code as same_tree};
ghost use Rattle.brisk_state.specs.Symbolic.{same_mode, same_thread as same_text, thread_named, with_mode};
ghost use Rattle.std.specs.Option.{option_copied};
ghost use Rattle.brisk_syntax.specs.Typing.{are_distinct};
ghost use Rattle.brisk_state.specs.Focus.{mode_of};
ghost use Rattle.brisk_state.specs.Places.{IsPlaceOf, names};

use brisk_syntax::{Code, copy_code, same_code};
use brisk_values::{Name, NoMemory};
use std::alloc::Global;

/// For which processes a thread stands.
#[derive(Clone, Copy, Debug, PartialEq, Eq)]
pub enum Mode {
    /// The process of a single role.
    One,
    /// One member of a set, which is in focus. The other members are set aside.
    At,
    /// All members of a set.
    Each,
}

/// A role, and the code that its processes have left.
#[derive(Drop)]
pub struct Thread {
    pub name: Name,
    pub mode: Mode,
    pub code: Code,
}

/// The same threads, which share their bodies.
pub(crate) fn copy_threads(alloc: Global, threads: &[Thread]) -> Result<Vec<Thread>, NoMemory>
    ensures { IfOk result (λ v. v.items ≡ threads.now) }
{
    let mut copies = Vec::new(alloc);
    for thread in threads {
        copies.push(Thread {
            name: thread.name,
            mode: thread.mode,
            code: copy_code(alloc, &thread.code)?,
        })?;
    }
    Ok(copies)
}

/// Whether the threads are the same.
pub(crate) fn same_threads(a: &[Thread], b: &[Thread]) -> bool
    ensures { result ≡ pointwise same_text a.now b.now }
{
    if a.len() != b.len() {
        return false;
    }
    for i in 0..a.len() {
        if !same_thread(&a[i], &b[i]) {
            return false;
        }
    }
    true
}

fn same_thread(a: &Thread, b: &Thread) -> bool
    ensures { result ≡ same_text a.now b.now }
{
    a.name == b.name && same_modes(a.mode, b.mode) && same_codes(&a.code, &b.code)
}

// Whether two modes are the same, as the definition says it.
fn same_modes(a: Mode, b: Mode) -> bool
    ensures { result ≡ same_mode a b }
{
    a == b
}

// Whether two codes are the same, as the definition says it.
fn same_codes(a: &Code, b: &Code) -> bool
    ensures { result ≡ same_tree a.now b.now }
{
    same_code(a, b)
}

/// The thread of this name, if there is one.
pub(crate) fn named<'a>(threads: &'a [Thread], name: &Name) -> Option<&'a Thread>
    ensures { option_copied result ≡ thread_named threads.now name.now }
{
    for thread in threads {
        if *name == thread.name {
            return Some(thread);
        }
    }
    None
}

/// The mode of the thread of this name, if there is one.
pub(crate) fn mode_named(threads: &[Thread], name: &Name) -> Option<Mode>
    ensures { result ≡ mode_of (thread_named threads.now name.now) }
{
    match named(threads, name) {
        None => None,
        Some(thread) => Some(thread.mode),
    }
}

/// Where the thread of this name stands, if there is one.
pub(crate) fn place_of(threads: &[Thread], name: &Name) -> Option<usize>
    ensures { MatchOption result (thread_named threads.now name.now ≡ None) (IsPlaceOf threads.now name.now) }
{
    for (i, thread) in threads.iter().enumerate() {
        if *name == thread.name {
            return Some(i);
        }
    }
    None
}

/// Puts the mode of the thread of this name, if there is one. The names differ.
pub(crate) fn put_mode(threads: &mut Vec<Thread>, name: &Name, mode: Mode)
    requires { are_distinct (names threads.old.items) ≡ true }
    ensures { threads.new.items ≡ with_mode name.now mode threads.old.items }
{
    if let Some(i) = place_of(threads, name) {
        threads[i].mode = mode;
    }
}
