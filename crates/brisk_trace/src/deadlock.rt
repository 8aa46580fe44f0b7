//! The schedule of a plain run that deadlocks.
ghost use Rattle.std.specs.Prelude.{◌≡◌, true, IfOk, MatchOption};
ghost use Rattle.brisk_syntax.specs.Typing.{each_has_tag};
ghost use Rattle.brisk_syntax.specs.WellTyped.{IsProgramWellTyped};
ghost use Rattle.brisk_instance.specs.Given.{instance_of};
ghost use Rattle.brisk_async.specs.PlainRuns.{Deadlocks, plain_instance as instance_at, plain_schedule};
ghost use Rattle.brisk_trace.specs.Plain.{IsPlainSchedule};

use crate::instance::plain_instance;
use crate::plain::{MOST_EVENTS, plain_order, plain_run};
use brisk_schedule::Schedule;
use brisk_syntax::Program;
use brisk_values::NoMemory;
use std::alloc::Global;

/// The schedule of the plain run at size 1, where it ends in a deadlocked state. In a plain run each set has the same size and
/// each input is 0, false or the first tag; the first process that has an enabled event takes it, the members of sets
/// before the single roles, from the lowest sender and place; and it ends after 100,000 events at most.
pub fn to_deadlock(alloc: Global, program: &Program) -> Result<Option<Schedule>, NoMemory>
    requires typed { IsProgramWellTyped program.now }
    requires tagged { each_has_tag program.now.enums ≡ true }
    ensures { let P = program.now in IfOk result (λ o. MatchOption o (¬ Deadlocks P (instance_at P 1) (plain_schedule P 1)) (λ s. IsPlainSchedule P 1 s × Deadlocks P (instance_of s.instance) s.events)) }
{
    let instance = plain_instance(alloc, program, 1)?;
    let order = plain_order(alloc, program, 1)?;
    let run = plain_run(alloc, program, &instance, &order, MOST_EVENTS)?;
    if !run.machine.is_deadlocked() {
        return Ok(None);
    }
    Ok(Some(Schedule {
        instance,
        events: run.events,
    }))
}
