//! The commands, each with the files that it reads.
ghost use Rattle.std.specs.Prelude.{IfSome};
ghost use Rattle.brisk_cli.specs.Answers.{IfAnswer, IsDue, OfCheck, OfDerive, OfOrder, OfRewrite, OfRun, Replies};

use crate::answer::{Answer, Stopped};
use crate::checked::checked;
use crate::derived::derived;
use crate::files::file;
use crate::order::run_choices;
use crate::rewritten::rewritten;
use crate::run::run_schedule;
use crate::source::{sequence, source};
use brisk_io::Folder;
use std::alloc::Global;

/// The greatest number of bytes of a source.
const SOURCE: usize = 1_048_576;

/// The greatest number of bytes of a sequential text, and of a derivation.
const SEQUENTIAL: usize = 16_777_216;

/// The greatest number of bytes of a schedule, and of choices.
const SCHEDULE: usize = 4_194_304;

/// What is answered for `rewrite F`.
pub fn rewrite<F: Folder>(alloc: Global, folder: &mut F, name: &str) -> Result<Answer, Stopped>
    ensures due { IfAnswer (λ status text. IsDue (F.misses folder.old) (F.misses folder.new) (F.faults folder.old) (F.faults folder.new) status) result }
    ensures told { IfSome (F.files folder.old) (λ files. IfAnswer (Replies (F.faults folder.old) (F.faults folder.new) (OfRewrite name.now files)) result) }
{
    let bytes = file(alloc, folder, name, SOURCE)?;
    let program = source(alloc, &bytes)?;
    rewritten(alloc, &program)
}

/// What is answered for `derive F`.
pub fn derive<F: Folder>(alloc: Global, folder: &mut F, name: &str) -> Result<Answer, Stopped>
    ensures due { IfAnswer (λ status text. IsDue (F.misses folder.old) (F.misses folder.new) (F.faults folder.old) (F.faults folder.new) status) result }
    ensures told { IfSome (F.files folder.old) (λ files. IfAnswer (Replies (F.faults folder.old) (F.faults folder.new) (OfDerive name.now files)) result) }
{
    let bytes = file(alloc, folder, name, SOURCE)?;
    let program = source(alloc, &bytes)?;
    derived(alloc, &program)
}

/// What is answered for `check F SEQ DERIV`.
pub fn check<F: Folder>(
    alloc: Global,
    folder: &mut F,
    name: &str,
    sequential: &str,
    derivation: &str,
) -> Result<Answer, Stopped>
    ensures due { IfAnswer (λ status text. IsDue (F.misses folder.old) (F.misses folder.new) (F.faults folder.old) (F.faults folder.new) status) result }
    ensures told { IfSome (F.files folder.old) (λ files. IfAnswer (Replies (F.faults folder.old) (F.faults folder.new) (OfCheck name.now sequential.now derivation.now files)) result) }
{
    let bytes = file(alloc, folder, name, SOURCE)?;
    let program = source(alloc, &bytes)?;
    let text = file(alloc, folder, sequential, SEQUENTIAL)?;
    let steps = file(alloc, folder, derivation, SEQUENTIAL)?;
    Ok(checked(alloc, &program, &text, &steps)?)
}

/// What is answered for `run F SCHEDULE`.
pub fn run<F: Folder>(
    alloc: Global,
    folder: &mut F,
    name: &str,
    schedule: &str,
) -> Result<Answer, Stopped>
    ensures due { IfAnswer (λ status text. IsDue (F.misses folder.old) (F.misses folder.new) (F.faults folder.old) (F.faults folder.new) status) result }
    ensures told { IfSome (F.files folder.old) (λ files. IfAnswer (Replies (F.faults folder.old) (F.faults folder.new) (OfRun name.now schedule.now files)) result) }
{
    let bytes = file(alloc, folder, name, SOURCE)?;
    let program = source(alloc, &bytes)?;
    let text = file(alloc, folder, schedule, SCHEDULE)?;
    run_schedule(alloc, &program, &text)
}

/// What is answered for `order SEQ CHOICES`.
pub fn order<F: Folder>(
    alloc: Global,
    folder: &mut F,
    name: &str,
    choices: &str,
) -> Result<Answer, Stopped>
    ensures due { IfAnswer (λ status text. IsDue (F.misses folder.old) (F.misses folder.new) (F.faults folder.old) (F.faults folder.new) status) result }
    ensures told { IfSome (F.files folder.old) (λ files. IfAnswer (Replies (F.faults folder.old) (F.faults folder.new) (OfOrder name.now choices.now files)) result) }
{
    let bytes = file(alloc, folder, name, SEQUENTIAL)?;
    let program = sequence(alloc, &bytes)?;
    let text = file(alloc, folder, choices, SCHEDULE)?;
    run_choices(alloc, &program, &text)
}
