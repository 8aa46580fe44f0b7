//! Tries that failed, and what is told of them.
ghost use Rattle.std.specs.Prelude.{◌≡◌, ◌∷◌, [], OnOk, IfOk};
ghost use Rattle.brisk_derivation.specs.Reports.{Tried};
ghost use Rattle.brisk_derivation.specs.Seen.{step_of};
ghost use Rattle.brisk_derivation.specs.TriesSeen.{end_of as ends_as};
ghost use Rattle.brisk_rules.specs.Rules.{Entered};
ghost use Rattle.brisk_search.specs.declared.closing.Premise.{Premise as Premised};
ghost use Rattle.brisk_search.specs.declared.drive.Drive.TheVariants.{Premise as of_premise};
ghost use Rattle.brisk_search.specs.Passes.{last_tries};
ghost use Rattle.brisk_search.specs.Tries.{end_of as end_in};
ghost use Rattle.brisk_search.specs.Views.{IsPremiseOf, TakesLast, failures_of, failures_told};

use crate::drive::Drive;
use crate::turn::Failed;
use brisk_derivation::{SideFault, Step, Tries, Try, TryEnd};
use brisk_loops::{Walk, Why};
use brisk_state::State;
use brisk_values::{Name, NoMemory};
use std::alloc::Global;

/// A try at the thread's head has failed.
pub(crate) fn fails(
    failures: &mut Vec<Failed>,
    at: Name,
    rule: Step,
    end: TryEnd,
) -> Result<(), NoMemory>
    ensures { OnOk result (failures_of failures.new.items ≡ (at, Tried (step_of rule) (ends_as end)) ∷ failures_of failures.old.items) }
{
    failures.push(Failed {
        at,
        what: Try { rule, end },
    })?;
    Ok(())
}

/// The rule is refused. A report names only the tests of compound rules.
pub(crate) fn is_refused(
    failures: &mut Vec<Failed>,
    at: Name,
    rule: Step,
    why: Why,
) -> Result<(), NoMemory>
    ensures { OnOk result (failures_of failures.new.items ≡ failures_told at (step_of rule) why (failures_of failures.old.items)) }
{
    let _fault: Option<SideFault> = None;
    match why {
        Why::Side(why) => fails(failures, at, rule, TryEnd::Fails(why)),
        Why::Rule(_) => Ok(()),
    }
}

/// How a try ends whose drive is stuck: by the close test that fails, facts aside, where all is at its end.
pub(crate) fn end_of(walk: &Walk, asked: &Drive, tries: Tries) -> Result<TryEnd, NoMemory>
    ensures { (p : Premised) (r : Entered) → asked.now ≡ of_premise p → IsPremiseOf r p walk.now.entered → IfOk result (λ e. ends_as e ≡ end_in r walk.now.state tries) }
{
    let Drive::Premise(premise) = asked else {
        return Err(NoMemory);
    };
    if premise.has_to_end(walk.state()) {
        return Ok(TryEnd::StuckFirst(tries));
    }
    match walk.fault_aside(premise.around, &premise.closing)? {
        None => Ok(TryEnd::StuckFirst(tries)),
        Some(why) => Ok(TryEnd::Fails(why)),
    }
}

/// The last try at each thread's head, in role order.
pub(crate) fn last_tries(
    alloc: Global,
    state: &State,
    failures: Vec<Failed>,
) -> Result<Tries, NoMemory>
    ensures { IfOk result (λ t. t ≡ last_tries (failures_of failures.items) state.now.threads) }
{
    let mut left = failures;
    let mut items = Vec::new(alloc);
    for thread in state.threads() {
        if let Some(last) = take_last(&mut left, thread.name) {
            items.push(last)?;
        }
    }
    Ok(Tries { items })
}

// Takes out the last try at the thread's head.
fn take_last(failures: &mut Vec<Failed>, name: Name) -> Option<Try>
    ensures { TakesLast name failures.old.items failures.new.items result }
{
    for place in (0..failures.len()).rev() {
        if failures[place].at == name {
            return Some(failures.remove(place).what);
        }
    }
    None
}
