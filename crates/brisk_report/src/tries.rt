//! Steps, and what was tried where they stop.
ghost use Rattle.std.specs.Prelude.{◌≡◌, ◌++◌, OnOk};
ghost use Rattle.brisk_derivation.specs.Seen.{step_of};
ghost use Rattle.brisk_derivation.specs.TriesSeen.{end_of, try_of};
ghost use Rattle.brisk_report.specs.Printing.{end_text, second_text, steps_text, stuck_text, tried_text, try_text};

use crate::faults::put_fault;
use brisk_derivation::{SideFault, Step, Steps, Tries, Try, TryEnd};
use brisk_derivtext::{put_first_line, write};
use brisk_text::put;
use brisk_values::NoMemory;
use std::alloc::Global;

/// Writes the lines of the steps: those of a derivation's text without the first, which has 19 bytes, and the last, which
/// has 4.
pub(crate) fn put_steps(alloc: Global, out: &mut Vec<u8>, steps: &Steps) -> Result<(), NoMemory>
    ensures { OnOk result (out.new.items ≡ out.old.items ++ steps_text steps.now) }
{
    let text = write(alloc, steps)?;
    put(out, &text[19..text.len() - 4])
}

// The second side of a branch that was tried, where it was begun.
fn put_second(
    alloc: Global,
    out: &mut Vec<u8>,
    second: &Steps,
    end: &TryEnd,
) -> Result<(), NoMemory>
    ensures { OnOk result (out.new.items ≡ out.old.items ++ second_text second.now (end_of end.now)) }
{
    match end {
        TryEnd::StuckSecond(_) | TryEnd::Fails(SideFault::BranchesDiffer) => {
            put(out, b"else\n")?;
            put_steps(alloc, out, second)
        }
        _ => Ok(()),
    }
}

// The steps of a try.
fn put_tried(alloc: Global, out: &mut Vec<u8>, rule: &Step, end: &TryEnd) -> Result<(), NoMemory>
    ensures { OnOk result (out.new.items ≡ out.old.items ++ tried_text (step_of rule.now) (end_of end.now)) }
{
    match rule {
        Step::Basic(_) => Ok(()),
        Step::Branch(_, first, second) => {
            put_steps(alloc, out, first)?;
            put_second(alloc, out, second, end)
        }
        Step::While(_, _, premise)
        | Step::For(_, _, _, premise)
        | Step::Repeat(_, _, premise)
        | Step::Gather(_, _, premise)
        | Step::Pick(_, _, premise) => put_steps(alloc, out, premise),
    }
}

#[cycle(tries)]
fn put_try(alloc: Global, out: &mut Vec<u8>, tried: &Try) -> Result<(), NoMemory>
    ensures { OnOk result (out.new.items ≡ out.old.items ++ try_text (try_of tried.now)) }
{
    put(out, b"try ")?;
    put_first_line(out, &tried.rule)?;
    put_tried(alloc, out, &tried.rule, &tried.end)?;
    put_end(alloc, out, &tried.end)
}

#[cycle(tries)]
fn put_end(alloc: Global, out: &mut Vec<u8>, end: &TryEnd) -> Result<(), NoMemory>
    ensures { OnOk result (out.new.items ≡ out.old.items ++ end_text (end_of end.now)) }
{
    match end {
        TryEnd::Fails(why) => {
            put(out, b"fails ")?;
            put_fault(out, why)?;
            put(out, b"\n")
        }
        TryEnd::StuckFirst(tries) | TryEnd::StuckSecond(tries) => put_stuck(alloc, out, tries),
    }
}

/// Writes the tries of a stuck state.
#[cycle(tries)]
pub(crate) fn put_stuck(alloc: Global, out: &mut Vec<u8>, tries: &Tries) -> Result<(), NoMemory>
    ensures { OnOk result (out.new.items ≡ out.old.items ++ stuck_text tries.now) }
{
    put(out, b"stuck\n")?;
    for tried in &tries.items {
        put_try(alloc, out, tried)?;
    }
    put(out, b"done\n")
}
