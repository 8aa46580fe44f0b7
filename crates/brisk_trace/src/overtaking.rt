//! The schedule of a plain run up to the earliest receive that takes a member again.
ghost use Rattle.std.specs.Prelude.{◌≡◌, true, IfOk, MatchOption};
ghost use Rattle.brisk_syntax.specs.Typing.{each_has_tag};
ghost use Rattle.brisk_syntax.specs.WellTyped.{IsProgramWellTyped, is_program_unbegun};
ghost use Rattle.brisk_instance.specs.Given.{FitsAsGiven, instance_of};
ghost use Rattle.brisk_async.specs.Machine.{start};
ghost use Rattle.brisk_async.specs.PlainRuns.{Overtakes, plain_from, plain_instance as instance_at, plain_schedule};
ghost use Rattle.brisk_trace.specs.Plain.{IsCut, IsOvertakingSchedule};

use crate::instance::plain_instance;
use crate::plain::{MOST_EVENTS, next_event, plain_order, take};
use crate::watch::Watch;
use brisk_async::{Event, Machine};
use brisk_schedule::{Events, Schedule};
use brisk_syntax::Program;
use brisk_values::{Instance, NoMemory, Pid};
use std::alloc::Global;

// The events of the plain run of an instance up to the earliest that overtakes, if one of so many events does.
fn overtaking_run(
    alloc: Global,
    program: &Program,
    instance: &Instance,
    order: &[Pid],
    most: u32,
) -> Result<Option<Events>, NoMemory>
    requires typed { IsProgramWellTyped program.now }
    requires unbegun { is_program_unbegun program.now ≡ true }
    requires fits { FitsAsGiven program.now.enums program.now.roles instance.now }
    ensures { let P = program.now in let i = instance_of instance.now in let whole = plain_from most order.now (start P i) in IfOk result (λ o. MatchOption o (¬ Overtakes P i whole) (λ es. IsCut P i whole es)) }
{
    let mut machine = Machine::begin(alloc, program, instance)?;
    let mut watch = Watch::new(alloc);
    let mut items = Vec::new(alloc);
    for _ in 0..most {
        let Some(event) = next_event(&machine, program, order) else {
            break;
        };
        let event = &event;
        let overtakes = watch.takes_again(event);
        watch.note(&machine, event)?;
        take(&mut machine, event)?;
        items.push(*event)?;
        if overtakes {
            return Ok(Some(Events { items }));
        }
    }
    Ok(None)
}

/// The schedule of the plain run at size 2 up to the earliest receive that takes a member which an earlier turn of the
/// same run of its gather took, where there is one. A gather is a `repeat` over a set whose turns are a receive from
/// any member of that set, and nothing else.
pub fn to_overtaking(alloc: Global, program: &Program) -> Result<Option<Schedule>, NoMemory>
    requires typed { IsProgramWellTyped program.now }
    requires unbegun { is_program_unbegun program.now ≡ true }
    requires tagged { each_has_tag program.now.enums ≡ true }
    ensures { let P = program.now in IfOk result (λ o. MatchOption o (¬ Overtakes P (instance_at P 2) (plain_schedule P 2)) (λ s. IsOvertakingSchedule P 2 s)) }
{
    let instance = plain_instance(alloc, program, 2)?;
    let order = plain_order(alloc, program, 2)?;
    match overtaking_run(alloc, program, &instance, &order, MOST_EVENTS)? {
        None => Ok(None),
        Some(events) => Ok(Some(Schedule { instance, events })),
    }
}
