//! What each process has left to do.
ghost use Rattle.std.specs.Prelude.{◌≡◌, IsSome, IsTrue, OnOk, ◌↔◌, All, Some, option_and_then};
ghost use Rattle.std.specs.BTreeMap as tree;
ghost use Rattle.brisk_values.specs.Places.{process_cmp};
ghost use Rattle.brisk_syntax.specs.Syntax.{done};
ghost use Rattle.std.specs.Option.{option_copied};
ghost use Rattle.std.specs.FinMap as map;
ghost use Rattle.brisk_syntax.specs.Segments.{head_of, or_done};
ghost use Rattle.brisk_syntax.specs.Value.{size_in};
ghost use Rattle.brisk_async.specs.Blocked.{IsBlocked};
ghost use Rattle.brisk_async.specs.Effects.{next_of};
ghost use Rattle.brisk_async.specs.Keys.{code_in_map, mail_in};
ghost use Rattle.brisk_values.specs.declared.value.Pid.{Pid as Process};

use crate::blocked::is_blocked;
use crate::mail::Mail;
use brisk_syntax::Code;
use brisk_values::{NoMemory, Pid, Sizes};
use std::alloc::Global;
use std::collections::BTreeMap;
use std::marker::Model;

/// The code after an event: the old one without its first statement, or another.
#[derive(Drop)]
pub enum Next {
    Rest,
    Code(Code),
}

/// The code of each process.
#[derive(Drop)]
pub struct Codes {
    codes: BTreeMap<Pid, Code>,
}

impl Model for Codes {
    ghost use Rattle.std.specs.FinMap as map;
    ghost use Rattle.brisk_async.specs.Keys.{Processes, coded_processes};

    ghost Value = { Processes };

    ghost coded = { coded_processes };

    ghost view = { λ m. map.from_entries m.codes.entries };
}

impl Codes {
    /// No codes.
    pub fn new(alloc: Global) -> Codes
        ensures { result ≡ map.empty }
    {
        Codes {
            codes: BTreeMap::new(alloc),
        }
    }

    /// Puts the code of a process.
    pub fn add(&mut self, process: Pid, code: Code) -> Result<(), NoMemory>
        ensures { OnOk result (self.new ≡ map.insert self.old process code) }
    {
        self.codes.insert(process, code)?;
        Ok(())
    }

    /// The code of a process, if it is in the instance.
    pub fn get(&self, process: &Pid) -> Option<&Code>
        ensures { option_copied result ≡ map.get self.now process.now }
    {
        self.codes.get(process)
    }

    /// Whether every process has nothing left to do.
    pub fn are_done(&self) -> bool
        ensures { IsTrue result ↔ ((p : Process) → code_in_map self.now p ≡ done) }
    {
        all_done(&self.codes)
    }

    /// Whether no process has an event.
    pub fn are_blocked(&self, sizes: &Sizes, mail: &Mail) -> bool
        ensures { IsTrue result ↔ ((p : Process) → IsBlocked (size_in sizes.now) (mail_in mail.now) p (head_of (code_in_map self.now p))) }
    {
        all_blocked(&self.codes, sizes, mail)
    }

    /// Puts the next code of a process.
    pub fn put(&mut self, process: &Pid, next: Next)
        requires { IsSome (option_and_then head_of (map.get self.old process.now)) }
        ensures { self.new ≡ map.insert self.old process.now (next_of next (or_done (map.get self.old process.now))) }
    {
        if let Some(code) = self.codes.get_mut(process) {
            return put_next(code, next);
        }
    }
}

// Whether all codes are empty.
fn all_done(codes: &BTreeMap<Pid, Code>) -> bool
    ensures done { IsTrue result ↔ All (λ c. c ≡ done) (tree.values codes.now) }
    ensures ordered { tree.IsOrdered process_cmp codes.now }
{
    codes.values().all(|code| is_empty(code))
}

// Whether no process has an event.
fn all_blocked(codes: &BTreeMap<Pid, Code>, sizes: &Sizes, mail: &Mail) -> bool
    ensures blocked { IsTrue result ↔ All (λ e. IsBlocked (size_in sizes.now) (mail_in mail.now) e.0 (head_of e.1)) codes.now.entries }
    ensures found { All (λ e. tree.get process_cmp codes.now e.0 ≡ Some e.1) codes.now.entries }
{
    codes
        .iter()
        .all(|(process, code)| is_blocked(sizes, mail, process, code))
}

// Whether the code is empty.
fn is_empty(code: &Code) -> bool
    ensures { IsTrue result ↔ (code.now ≡ done) }
{
    code.first().is_none()
}

// Puts the next code.
fn put_next(code: &mut Code, next: Next)
    requires { IsSome (head_of code.old) }
    ensures { code.new ≡ next_of next code.old }
{
    match next {
        Next::Rest => code.skip(),
        Next::Code(next) => *code = next,
    }
}
