//! What `run` answers for the text of a schedule.
ghost use Rattle.std.specs.Prelude.{◌≡◌};
ghost use Rattle.brisk_syntax.specs.WellTyped.{IsProgramWellTyped};
ghost use Rattle.brisk_cli.specs.Answers.{IfAnswer};
ghost use Rattle.brisk_cli.specs.Runs.{OfSchedule, status_of};

use crate::answer::{Answer, Stopped};
use crate::faults::schedule_answer;
use crate::status::Status;
use brisk_async::StartFault;
use brisk_schedule::{Ended, play, print_played, read};
use brisk_syntax::Program;
use std::alloc::Global;

fn status(ended: Ended) -> Status
    ensures { result ≡ status_of ended }
{
    match ended {
        Ended::Refused(_, _) => Status::Refused,
        _ => Status::Done,
    }
}

/// How the schedule ends that the text holds, or why it holds none.
pub fn run_schedule(alloc: Global, program: &Program, text: &[u8]) -> Result<Answer, Stopped>
    requires { IsProgramWellTyped program.now }
    ensures { IfAnswer (OfSchedule program.now text.now) result }
{
    let schedule = match read(alloc, program, text) {
        Ok(schedule) => schedule,
        Err(fault) => return Ok(schedule_answer(alloc, "schedule", fault)?),
    };
    match play(alloc, program, &schedule) {
        Ok(played) => Ok(Answer {
            status: status(played.ended),
            text: print_played(alloc, program, &played)?,
        }),
        Err(StartFault::NoMemory) => Err(Stopped::NoMemory),
        // the reader takes only instances that fit and aren't too large
        Err(StartFault::BadInstance | StartFault::TooLarge) => unreachable!(),
    }
}
