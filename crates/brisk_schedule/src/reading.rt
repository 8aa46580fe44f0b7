//! Schedules and choices, read.
ghost use Rattle.std.specs.Prelude.{◌≡◌, IfOk, IfErr};
ghost use Rattle.brisk_syntax.specs.WellTyped.{IsProgramWellTyped};
ghost use Rattle.brisk_seq.specs.WellTyped.{IsSeqWellTyped};
ghost use Rattle.brisk_schedule.specs.Reading.{Fails};
ghost use Rattle.brisk_schedule.specs.Texts.{AreChoicesFor, IsScheduleFor, choices_text, schedule_text};

use crate::events::{read_events, read_picks, read_turns};
use crate::fault::ScheduleFault;
use crate::format::Format;
use crate::instance::read_instance;
use crate::lines::Lines;
use crate::schedule::{Choices, Schedule};
use brisk_seq::SeqProgram;
use brisk_syntax::Program;
use std::alloc::Global;

/// Reads a schedule of a program. A fault names the first line, counted from 1, at which the text fails; at one line
/// `Text` comes before `Misfit`, and `Misfit` before `TooLarge`.
pub fn read(alloc: Global, program: &Program, text: &[u8]) -> Result<Schedule, ScheduleFault>
    requires { IsProgramWellTyped program.now }
    ensures ok { IfOk result (IsScheduleFor program.now.enums program.now.roles) }
    ensures text { IfOk result (λ s. text.now ≡ schedule_text s) }
    ensures err { IfErr result (Fails Format.Schedule program.now.enums program.now.roles text.now) }
{
    let mut lines = Lines::new(Format::Schedule, text);
    let lines = &mut lines;
    let instance = read_instance(
        alloc,
        lines,
        Format::Schedule,
        &program.enums,
        &program.roles,
    )?;
    let events = read_events(alloc, lines, &instance.sizes)?;
    Ok(Schedule { instance, events })
}

/// Reads choices of a sequential program, with the same faults.
pub fn read_choices(
    alloc: Global,
    program: &SeqProgram,
    text: &[u8],
) -> Result<Choices, ScheduleFault>
    requires { IsSeqWellTyped program.now }
    ensures ok { IfOk result (AreChoicesFor program.now.enums program.now.roles) }
    ensures text { IfOk result (λ c. text.now ≡ choices_text c) }
    ensures err { IfErr result (Fails Format.Choices program.now.enums program.now.roles text.now) }
{
    let mut lines = Lines::new(Format::Choices, text);
    let lines = &mut lines;
    let instance = read_instance(
        alloc,
        lines,
        Format::Choices,
        &program.enums,
        &program.roles,
    )?;
    let turns = read_turns(lines)?;
    let picks = read_picks(alloc, lines)?;
    Ok(Choices {
        instance,
        turns,
        picks,
    })
}
