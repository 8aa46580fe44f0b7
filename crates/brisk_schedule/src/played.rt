//! Schedules played on a machine.
ghost use Rattle.std.specs.Prelude.{◌≡◌, List, IfOk, IfErr, Some};
ghost use Rattle.brisk_syntax.specs.WellTyped.{IsProgramWellTyped};
ghost use Rattle.brisk_instance.specs.Starting.{IsCause, IsReady};
ghost use Rattle.brisk_instance.specs.Given.{instance_of};
ghost use Rattle.brisk_async.specs.declared.event.Event.{Event as Taken};
ghost use Rattle.brisk_async.specs.Machine.{State, run, start as start_of};
ghost use Rattle.brisk_async.specs.States.{state_of};
ghost use Rattle.brisk_schedule.specs.Playing.{EndsSo};

use crate::schedule::Schedule;
use brisk_async::{Machine, StartFault, StepFault};
use brisk_syntax::Program;
use std::alloc::Global;

/// How a schedule ends.
#[derive(Clone, Copy, Debug, PartialEq, Eq)]
pub enum Ended {
    /// Every process has come to its end.
    Halted,
    /// Some process has something left to do, and no event has a next state.
    Deadlocked,
    /// All events were taken, and some event has a next state.
    Running,
    /// The event of this number, counted from 1, has no next state, for this reason. It is never want of memory.
    Refused(u64, StepFault),
}

/// How a schedule ended, and the machine as it stands then.
#[derive(Drop)]
pub struct Played {
    pub ended: Ended,
    pub machine: Machine,
}

// How a machine stands of which all events were taken.
fn standing(machine: &Machine) -> Ended
    ensures { (s : State) (es : List Taken) → run s es ≡ Some (state_of machine.now) → EndsSo s es result (state_of machine.now) }
{
    if machine.is_halted() {
        Ended::Halted
    } else if machine.is_deadlocked() {
        Ended::Deadlocked
    } else {
        Ended::Running
    }
}

/// Takes the events in order, from the start of the instance, up to the first that has no next state.
pub fn play(alloc: Global, program: &Program, schedule: &Schedule) -> Result<Played, StartFault>
    requires { IsProgramWellTyped program.now }
    ensures fits { IfOk result (λ _. IsReady program.now.enums program.now.roles schedule.now.instance) }
    ensures kept { IfOk result (λ p. p.machine.program ≡ program.now) }
    ensures ends { IfOk result (λ p. EndsSo (start_of program.now (instance_of schedule.now.instance)) schedule.now.events p.ended (state_of p.machine)) }
    ensures err { IfErr result (IsCause program.now.enums program.now.roles schedule.now.instance) }
{
    let mut machine = Machine::start(alloc, program, &schedule.instance)?;
    let mut number = 1;
    for event in &schedule.events.items {
        if let Err(why) = machine.step(event) {
            return match why {
                StepFault::NoMemory => Err(StartFault::NoMemory),
                _ => Ok(Played {
                    ended: Ended::Refused(number, why),
                    machine,
                }),
            };
        }
        number += 1;
    }
    Ok(Played {
        ended: standing(&machine),
        machine,
    })
}
