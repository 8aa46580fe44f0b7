//! A derivation's text, checked.
ghost use Rattle.std.specs.Prelude.{◌≡◌, Ok as okay, Err as failed, IfOk, IfErr, IsErr, OnErr};
ghost use Rattle.brisk_syntax.specs.WellTyped.{IsProgramWellTyped};
ghost use Rattle.brisk_print.specs.Layout.{sequential};
ghost use Rattle.brisk_check.specs.Checking as checking;
ghost use Rattle.brisk_check.specs.declared.verdict.CheckFault.TheVariants.{NoMemory as out_of_memory};
ghost use Rattle.brisk_check.specs.Seen.{seen, spent, Ends, Faults, Fed};
ghost use Rattle.brisk_check.specs.Told.{told, Causes, Judges};
ghost use Rattle.brisk_check.specs.Working.{checked_of, path_of, work_of, IsVerdictOf};

use crate::feeding::feed_all;
use crate::verdict::{CheckFault, Verdict};
use crate::work::{Path, Work};
use brisk_derivtext::{DerivFault, Lines};
use brisk_loops::{AcceptFault, Walk};
use brisk_print::print_seq;
use brisk_seq::SeqProgram;
use brisk_syntax::Program;
use brisk_values::NoMemory;
use std::alloc::Global;
use std::marker::Model;
use std::mem;

// The place of the first byte at which the texts differ; where one is the front of the other, the shorter length.
fn differs_at(a: &[u8], b: &[u8]) -> Option<u64>
    ensures { result ≡ checking.differs_at a.now b.now }
{
    let shorter = a.len().min(b.len());
    for i in 0..shorter {
        if a[i] != b[i] {
            return Some(i as u64);
        }
    }
    if a.len() == b.len() {
        None
    } else {
        Some(shorter as u64)
    }
}

// The text of the sequential program is compared with this one.
fn compared(alloc: Global, program: &SeqProgram, seq_text: &[u8]) -> Result<Verdict, NoMemory>
    ensures { IfOk result (λ v. v ≡ told (checking.compared (checking.differs_at (sequential program.now) seq_text.now))) }
{
    let text = print_seq(alloc, program)?;
    match differs_at(&text, seq_text) {
        None => Ok(Verdict::Valid),
        Some(place) => Ok(Verdict::OtherProgram(place)),
    }
}

// The verdict by what the calls of all steps have come to.
fn judged(alloc: Global, path: &Path, seq_text: &[u8]) -> Result<Verdict, NoMemory>
    ensures { IfOk result (IsVerdictOf (path_of path.now) seq_text.now) }
{
    match path {
        Path::Fails(line, why) => Ok(Verdict::Invalid(*line, *why)),
        Path::Walks(walk) => match walk.finish() {
            Ok(found) => compared(alloc, &found, seq_text),
            Err(AcceptFault::Bad(line, why)) => Ok(Verdict::Invalid(line, why)),
            Err(AcceptFault::NoMemory) => Err(NoMemory),
        },
    }
}

// The end of the text was read, and nothing behind it.
fn is_done(work: &Work) -> bool
    ensures { result ≡ checking.is_done work.now.rest.items work.now.lines.reading.ended }
{
    work.rest.is_empty() && work.lines.is_ended()
}

// The verdict where all was fed.
fn ended(alloc: Global, work: &Work, seq_text: &[u8]) -> Result<Verdict, CheckFault>
    ensures ok { IfOk result (Ends (okay (work_of work.now)) seq_text.now) }
    ensures cause { IfErr result (Faults (okay (work_of work.now)) seq_text.now) }
{
    if !is_done(work) {
        let line = work.lines.count().saturating_add(1);
        return Err(CheckFault::Deriv(line));
    }
    Ok(judged(alloc, &work.path, seq_text)?)
}

// The piece is fed, unless the text has failed, or the checker is spent.
fn fed(alloc: Global, work: Result<Work, DerivFault>, piece: &[u8]) -> Result<Work, DerivFault>
    ensures fed { (checked_of result ≡ spent → ⊥) → Fed (checked_of work) piece.now (checked_of result) }
    ensures stays { checked_of work ≡ spent → checked_of result ≡ spent }
{
    match work {
        Ok(work) => feed_all(alloc, work, piece),
        Err(fault) => Err(fault),
    }
}

/// A checker of a derivation's text, which is fed in pieces.
#[derive(Drop)]
pub struct Checker {
    alloc: Global,
    // Spent it has the fault of want of memory.
    work: Result<Work, DerivFault>,
}

impl Model for Checker {
    ghost use Rattle.brisk_check.specs.Seen.{Checked};
    ghost use Rattle.brisk_check.specs.SeenStored.{coded_checked};
    ghost use Rattle.brisk_check.specs.Working.{checked_of};

    ghost Value = { Checked };

    ghost coded = { coded_checked };

    ghost view = { λ c. checked_of c.work };
}

impl Checker {
    /// Nothing was fed.
    pub fn start(alloc: Global, program: &Program) -> Result<Checker, NoMemory>
        requires { IsProgramWellTyped program.now }
        ensures { IfOk result (λ c. c ≡ seen (checking.begun program.now)) }
    {
        let walk = Walk::start(alloc, program)?;
        Ok(Checker {
            alloc,
            work: Ok(Work {
                rest: Vec::new(alloc),
                lines: Lines::start(alloc),
                path: Path::Walks(walk),
            }),
        })
    }

    /// The piece comes next. After want of memory the checker is spent: this and `finish` tell it from then on.
    pub fn feed(&mut self, piece: &[u8]) -> Result<(), NoMemory>
        ensures ok { IfOk result (λ _. Fed self.old piece.now self.new) }
        ensures err { OnErr result (self.new ≡ spent) }
        ensures stays { self.old ≡ spent → IsErr result }
    {
        let work = mem::replace(&mut self.work, Err(DerivFault::NoMemory));
        self.work = fed(self.alloc, work, piece);
        match self.work {
            Err(DerivFault::NoMemory) => Err(NoMemory),
            _ => Ok(()),
        }
    }

    /// The verdict, where all was fed.
    pub fn finish(&self, seq_text: &[u8]) -> Result<Verdict, CheckFault>
        ensures ok { IfOk result (Ends self.now seq_text.now) }
        ensures cause { IfErr result (Faults self.now seq_text.now) }
        ensures stays { self.now ≡ spent → result ≡ failed out_of_memory }
    {
        match &self.work {
            Ok(work) => ended(self.alloc, work, seq_text),
            Err(fault) => Err(CheckFault::from(*fault)),
        }
    }
}

/// The verdict on the derivation with this text, for the program and the text of a sequential program.
pub fn check(
    alloc: Global,
    program: &Program,
    seq_text: &[u8],
    deriv_text: &[u8],
) -> Result<Verdict, CheckFault>
    requires { IsProgramWellTyped program.now }
    ensures ok { IfOk result (Judges program.now deriv_text.now seq_text.now) }
    ensures cause { IfErr result (Causes deriv_text.now) }
{
    let mut checker = Checker::start(alloc, program)?;
    checker.feed(deriv_text)?;
    checker.finish(seq_text)
}
