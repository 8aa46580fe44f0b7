//! The derivation of a well-typed program, or why there is none.
ghost use Rattle.std.specs.Prelude.{◌≡◌, ◌++◌, true, IfErr, IfOk};
ghost use Rattle.std.specs.Option.{option_copied};
ghost use Rattle.brisk_schedule.specs.Texts.{schedule_text};
ghost use Rattle.brisk_syntax.specs.Typing.{each_has_tag};
ghost use Rattle.brisk_syntax.specs.WellTyped.{IsProgramWellTyped, is_program_unbegun};
ghost use Rattle.brisk_cli.specs.Answers.{IsTold};
ghost use Rattle.brisk_cli.specs.Rewriting.{IsUnsequenced, OfRefusal, OfStandstill, budget_of, last_text, search_of};
ghost use Rattle.brisk_search.specs.Searched.{Sequenced};

use crate::answer::{Answer, Stopped};
use crate::status::Status;
use brisk_derivation::{Report, Steps};
use brisk_report::print_report;
use brisk_schedule::{Schedule, write};
use brisk_search::{Outcome, search};
use brisk_seq::SeqProgram;
use brisk_syntax::{Program, is_star, statements};
use brisk_trace::{to_deadlock, to_overtaking};
use brisk_values::NoMemory;
use std::alloc::Global;

// So many rules may be applied for a program without statements, and so many more for each statement.
const LEAST_BUDGET: u64 = 20_000;

const PER_STATEMENT: u64 = 64;

/// A derivation of the program and its sequential program. Where the search comes to none, it is told why.
pub fn sequenced(alloc: Global, program: &Program) -> Result<(Steps, SeqProgram), Stopped>
    requires typed { IsProgramWellTyped program.now }
    requires unbegun { is_program_unbegun program.now ≡ true }
    requires tagged { each_has_tag program.now.enums ≡ true }
    ensures found { IfOk result (λ r. search_of program.now ≡ Sequenced r.0 r.1) }
    ensures told { IfErr result (IsTold (IsUnsequenced program.now)) }
{
    match search(alloc, program, budget(program))? {
        Outcome::Sequenced(steps, sequential) => Ok((steps, sequential)),
        Outcome::Stuck(report) => {
            let answer = refused(alloc, program, Some(&report))?;
            Err(Stopped::Told(answer))
        }
        Outcome::Budget(_) => {
            let answer = refused(alloc, program, None)?;
            Err(Stopped::Told(answer))
        }
    }
}

// The shipped budget of the search.
fn budget(program: &Program) -> u64
    ensures { result ≡ budget_of program.now }
{
    statements(program)
        .saturating_mul(PER_STATEMENT)
        .saturating_add(LEAST_BUDGET)
}

// Why a program isn't rewritten, where the search is stuck with a report, or has spent its budget.
fn refused(alloc: Global, program: &Program, report: Option<&Report>) -> Result<Answer, NoMemory>
    requires typed { IsProgramWellTyped program.now }
    requires unbegun { is_program_unbegun program.now ≡ true }
    requires tagged { each_has_tag program.now.enums ≡ true }
    ensures { IfOk result (λ a. OfRefusal program.now (last_text program.now (option_copied report.entry)) a.status a.text.items) }
{
    match to_deadlock(alloc, program)? {
        Some(schedule) => {
            let answer = with_schedule(alloc, b"deadlock\n", &schedule)?;
            Ok(answer)
        }
        None => {
            let answer = not_deadlocked(alloc, program, report)?;
            Ok(answer)
        }
    }
}

// The same where the plain run at size one doesn't deadlock.
fn not_deadlocked(
    alloc: Global,
    program: &Program,
    report: Option<&Report>,
) -> Result<Answer, NoMemory>
    requires typed { IsProgramWellTyped program.now }
    requires unbegun { is_program_unbegun program.now ≡ true }
    requires tagged { each_has_tag program.now.enums ≡ true }
    ensures { IfOk result (λ a. (a.status ≡ Status.Refused) × OfStandstill program.now (last_text program.now (option_copied report.entry)) a.text.items) }
{
    if !is_star(program) {
        let answer = unsequenced(alloc, program, report)?;
        return Ok(answer);
    }
    match to_overtaking(alloc, program)? {
        Some(schedule) => {
            let answer = with_schedule(alloc, b"overtaken\n", &schedule)?;
            Ok(answer)
        }
        None => {
            let answer = unsequenced(alloc, program, report)?;
            Ok(answer)
        }
    }
}

// What the search left, where neither plain run shows more.
fn unsequenced(
    alloc: Global,
    program: &Program,
    report: Option<&Report>,
) -> Result<Answer, NoMemory>
    requires { IsProgramWellTyped program.now }
    ensures { IfOk result (λ a. (a.status ≡ Status.Refused) × (a.text.items ≡ last_text program.now (option_copied report.entry))) }
{
    match report {
        None => Answer::counted(alloc, Status::Refused, "budget", budget(program)),
        Some(report) => Ok(Answer {
            status: Status::Refused,
            text: print_report(alloc, program, report)?,
        }),
    }
}

// The refusal with a word and a schedule.
fn with_schedule(alloc: Global, word: &[u8], schedule: &Schedule) -> Result<Answer, NoMemory>
    ensures { IfOk result (λ a. (a.status ≡ Status.Refused) × (a.text.items ≡ word.now ++ schedule_text schedule.now)) }
{
    let lines = write(alloc, schedule)?;
    let mut text = Vec::from_slice(alloc, word)?;
    text.extend_from_slice(&lines)?;
    Ok(Answer {
        status: Status::Refused,
        text,
    })
}
