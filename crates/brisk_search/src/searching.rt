//! The search for a derivation, in two passes.
ghost use Rattle.std.specs.Prelude.{◌≡◌, None as none, Ok as okay, Some as some, IfOk};
ghost use Rattle.brisk_syntax.specs.WellTyped.{IsProgramWellTyped};
ghost use Rattle.brisk_loops.specs.Walk.{finish as finished_by};
ghost use Rattle.brisk_search.specs.Drives.{Way};
ghost use Rattle.brisk_search.specs.Met.{AnswersAs, IsRewound, IsSearched};
ghost use Rattle.brisk_search.specs.Passes.{first_pass, second_pass as written_second};
ghost use Rattle.brisk_search.specs.Searched.{after_first, after_second, is_simple};
ghost use Rattle.brisk_search.specs.Sound.{IsSound};
ghost use Rattle.brisk_search.specs.declared.outcome.Outcome.TheVariants.{Sequenced};
ghost use Rattle.brisk_seq.specs.declared.tree.SeqProgram.{SeqProgram as SeqProgramOf};
ghost use Rattle.brisk_search.specs.Views.{left_of};

use crate::drive::Drive;
use crate::limits::{Limits, Pass};
use crate::outcome::Outcome;
use crate::ring::drive;
use crate::turn::Driven;
use brisk_derivation::{Report, Steps};
use brisk_loops::Walk;
use brisk_seq::SeqProgram;
use brisk_syntax::{Program, is_star, is_straight};
use brisk_values::NoMemory;
use std::alloc::Global;

// At most so many rules stand one in another.
const DEEPEST: u16 = 256;

/// The search, with so many rules to apply. Straight programs and stars have no budget, and one pass.
pub fn search(alloc: Global, program: &Program, budget: u64) -> Result<Outcome, NoMemory>
    requires { IsProgramWellTyped program.now }
    ensures searched { IfOk result (λ o. IsSearched program.now budget o) }
    ensures sound { IfOk result (λ o. IsSound program.now o) }
{
    let walk = Walk::start(alloc, program)?;
    if is_simple(program) {
        search_uncounted(alloc, walk)
    } else {
        search_counted(alloc, walk, budget)
    }
}

// The program is straight or a star.
fn is_simple(program: &Program) -> bool
    ensures { result ≡ is_simple program.now }
{
    is_straight(program) || is_star(program)
}

// One pass, whose rules aren't counted.
fn search_uncounted(alloc: Global, begun: Walk) -> Result<Outcome, NoMemory>
    requires { IsRewound none begun }
    ensures { IfOk result (λ o. AnswersAs begun.program none (first_pass begun.program none) o) }
{
    let mut walk = begun;
    let limits = Limits {
        alloc,
        budget: None,
        pass: Pass::First,
    };
    match drive(&limits, &mut walk, &Drive::Top, DEEPEST)? {
        Driven::Reached(steps) => finishes(walk, steps),
        Driven::Spent => Ok(Outcome::Budget(walk)),
        Driven::Stuck(steps, tries) => Ok(Outcome::Stuck(Report { steps, tries })),
    }
}

// Two passes, whose rules are counted together.
fn search_counted(alloc: Global, begun: Walk, budget: u64) -> Result<Outcome, NoMemory>
    requires { IsRewound (some budget) begun }
    ensures { IfOk result (λ o. AnswersAs begun.program (some budget) (after_first begun.program (first_pass begun.program (left_of (some budget) begun.applied))) o) }
{
    let mut walk = begun;
    let limits = Limits {
        alloc,
        budget: Some(budget),
        pass: Pass::First,
    };
    match drive(&limits, &mut walk, &Drive::Top, DEEPEST)? {
        Driven::Reached(steps) => finishes(walk, steps),
        Driven::Spent => Ok(Outcome::Budget(walk)),
        Driven::Stuck(steps, tries) => {
            walk.rewind()?;
            second_pass(alloc, walk, budget, Report { steps, tries })
        }
    }
}

// Pass two. Where it is stuck as well, the report is that of pass one.
fn second_pass(alloc: Global, begun: Walk, budget: u64, report: Report) -> Result<Outcome, NoMemory>
    requires { IsRewound (some budget) begun }
    ensures { (w : Way) → w.steps ≡ report.steps → IfOk result (λ o. AnswersAs begun.program (some budget) (after_second w report.tries (written_second begun.program (left_of (some budget) begun.applied))) o) }
{
    let mut walk = begun;
    let limits = Limits {
        alloc,
        budget: Some(budget),
        pass: Pass::Second,
    };
    match drive(&limits, &mut walk, &Drive::Top, DEEPEST)? {
        Driven::Reached(steps) => finishes(walk, steps),
        Driven::Spent => Ok(Outcome::Budget(walk)),
        Driven::Stuck(_, _) => Ok(Outcome::Stuck(report)),
    }
}

// The sequential program at the goal of the top, where no code is left.
fn finishes(walk: Walk, steps: Steps) -> Result<Outcome, NoMemory>
    ensures { IfOk result (λ o. (q : SeqProgramOf) × (finished_by walk ≡ okay q) × (o ≡ Sequenced steps q)) }
{
    match walk.finish() {
        Ok(program) => Ok(Outcome::Sequenced(steps, program)),
        Err(_) => Err(NoMemory),
    }
}
