//! The text of a report.
ghost use Rattle.std.specs.Prelude.{◌≡◌, IfOk};
ghost use Rattle.brisk_syntax.specs.WellTyped.{IsProgramWellTyped};
ghost use Rattle.brisk_report.specs.Printing.{report_text, text_at as text_by};

use crate::left::put_left;
use crate::mail::put_mail;
use crate::tries::{put_steps, put_stuck};
use crate::walking::take_all;
use brisk_derivation::{Report, SideFault};
use brisk_loops::{AcceptFault, Walk, Why};
use brisk_state::State;
use brisk_syntax::Program;
use brisk_text::put;
use brisk_values::NoMemory;
use std::alloc::Global;

// The text of a report whose steps lead to this state.
fn text_at(
    alloc: Global,
    program: &Program,
    report: &Report,
    state: &State,
) -> Result<Vec<u8>, NoMemory>
    ensures { IfOk result (λ v. v.items ≡ text_by program.now report.now state.now) }
{
    let messages = state.pending()?;
    let mut out = Vec::new(alloc);
    put(&mut out, b"leftover\n")?;
    put_left(alloc, &mut out, state.threads())?;
    put_mail(alloc, &mut out, program, &messages)?;
    put(&mut out, b"report\n")?;
    put_steps(alloc, &mut out, &report.steps)?;
    put_stuck(alloc, &mut out, &report.tries)?;
    Ok(out)
}

/// The text of a report that holds: what is left where its steps lead, the steps, and what was tried there. Where the
/// steps don't apply, the text is empty.
pub fn print_report(alloc: Global, program: &Program, report: &Report) -> Result<Vec<u8>, NoMemory>
    requires { IsProgramWellTyped program.now }
    ensures { IfOk result (λ v. v.items ≡ report_text program.now report.now) }
{
    let _fault: Option<SideFault> = None;
    let _why: Option<Why> = None;
    let mut walk = Walk::start(alloc, program)?;
    match take_all(&mut walk, &report.steps) {
        Ok(()) => text_at(alloc, program, report, walk.state()),
        Err(AcceptFault::Bad(_, _)) => Ok(Vec::new(alloc)),
        Err(AcceptFault::NoMemory) => Err(NoMemory),
    }
}
