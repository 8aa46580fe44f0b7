//! What stands behind an instance, read: events, or choices, up to the end.
ghost use Rattle.std.specs.Prelude.{◌≡◌, ◌+◌, ◌↔◌, ℕ, Option as Opt, true, [], IfOk, IfErr, IsTrue, OnOk, MatchOption, ◌<◌, length};
ghost use Rattle.brisk_lines.specs.declared.line.Process.{Process as AProcess};
ghost use Rattle.std.specs.List.{AllByRecursion};
ghost use Rattle.brisk_lines.specs.declared.line.Line.TheVariants as l;
ghost use Rattle.brisk_schedule.specs.declared.format.Format.TheVariants as format;
ghost use Rattle.brisk_schedule.specs.Reading.{IsWritten, MayFollow, TellsTurns};
ghost use Rattle.brisk_schedule.specs.Taking.{Adds, IsUnwanted, LacksEnd, TakesLine, TakesToEnd};
ghost use Rattle.brisk_schedule.specs.Texts.{IsTold, Sizes as Widths, event_line as line_of_event, is_told, written as written_in};

use crate::fault::ScheduleFault;
use crate::lines::Lines;
use crate::schedule::{Events, Picks};
use crate::writing::is_sized;
use brisk_async::Event;
use brisk_lines::{Line, Process};
use brisk_values::{Pid, Sizes};
use std::alloc::Global;

// The process that is written so, if it is written as the sizes ask.
fn pid_of(sizes: &Sizes, process: &Process) -> Option<Pid>
    ensures { MatchOption result (IsWritten sizes.now process.now → ⊥) (λ p. (written_in sizes.now p ≡ process.now) × (is_told sizes.now p ≡ true)) }
{
    let sized = is_sized(sizes, &process.role);
    match process.member {
        Some(member) => {
            if sized {
                Some(Pid {
                    role: process.role,
                    member,
                })
            } else {
                None
            }
        }
        None => {
            if sized {
                None
            } else {
                Some(Pid {
                    role: process.role,
                    member: 0,
                })
            }
        }
    }
}

// The event of a line, if its processes are written as the sizes ask.
fn event_of(
    sizes: &Sizes,
    process: &Process,
    sender: &Option<Process>,
    place: Option<u32>,
) -> Option<Event>
    ensures { MatchOption result (MayFollow sizes.now (l.Event process.now sender.now place) → ⊥) (λ e. (line_of_event sizes.now e ≡ l.Event process.now sender.now place) × IsTold sizes.now e) }
{
    let process = pid_of(sizes, process)?;
    let sender = match sender {
        Some(sender) => Some(pid_of(sizes, sender)?),
        None => None,
    };
    Some(Event {
        process,
        sender,
        place,
    })
}

// Whether the line is the end.
fn is_end(line: &Line) -> bool
    ensures { IsTrue result ↔ (line.now ≡ l.End) }
{
    matches!(line, Line::End)
}

// The event that the line tells, if it is one whose processes are written as the sizes ask.
fn told_event(sizes: &Sizes, line: &Line) -> Option<Event>
    ensures { MatchOption result ((p : AProcess) (q : Opt AProcess) (k : Opt ℕ) → line.now ≡ l.Event p q k → MayFollow sizes.now line.now → ⊥) (λ e. (line.now ≡ line_of_event sizes.now e) × IsTold sizes.now e) }
{
    match line {
        Line::Event(process, sender, place) => event_of(sizes, process, sender, *place),
        _ => None,
    }
}

// The number that the line tells, if it is a choice.
fn told_choice(line: &Line) -> Option<u32>
    ensures { MatchOption result ((k : ℕ) → line.now ≡ l.Choose k → ⊥) (λ k. line.now ≡ l.Choose k) }
{
    match line {
        Line::Choose(number) => Some(*number),
        _ => None,
    }
}

// The number of turns that the line tells, if it does.
fn told_turns(line: &Line) -> Option<u64>
    ensures { MatchOption result ((n : ℕ) → line.now ≡ l.Turns n → ⊥) (λ n. line.now ≡ l.Turns n) }
{
    match line {
        Line::Turns(turns) => Some(*turns),
        _ => None,
    }
}

// That nothing stands behind the end.
fn finish(lines: &Lines<'_>) -> Result<(), ScheduleFault>
    ensures ok { OnOk result (lines.now.rest ≡ []) }
    ensures err { IfErr result (λ f. (f ≡ ScheduleFault.Text (lines.now.number + 1)) × (lines.now.rest ≡ [] → ⊥)) }
{
    if lines.is_empty() {
        Ok(())
    } else {
        Err(lines.excess())
    }
}

// Adds the next event, or comes to the end and answers false.
fn add_event(
    items: &mut Vec<Event>,
    lines: &mut Lines<'_>,
    sizes: &Sizes,
) -> Result<bool, ScheduleFault>
    requires { lines.old.format ≡ format.Schedule }
    ensures ok { IfOk result (λ more. Adds (line_of_event sizes.now) (IsTold sizes.now) more lines.old lines.new items.old.items items.new.items) }
    ensures shorter { OnOk result (length lines.new.rest < length lines.old.rest) }
    ensures err { IfErr result (IsUnwanted (MayFollow sizes.now) lines.old) }
{
    let Some(line) = lines.next() else {
        return Err(lines.excess());
    };
    if is_end(&line) {
        return Ok(false);
    }
    let Some(event) = told_event(sizes, &line) else {
        return Err(lines.misfit());
    };
    let Event {
        process,
        sender,
        place,
    } = event;
    items.push(Event {
        process,
        sender,
        place,
    })?;
    Ok(true)
}

/// The events up to the end, in an instance of these sizes.
pub fn read_events(
    alloc: Global,
    lines: &mut Lines<'_>,
    sizes: &Sizes,
) -> Result<Events, ScheduleFault>
    requires { lines.old.format ≡ format.Schedule }
    ensures told { IfOk result (λ es. AllByRecursion (IsTold sizes.now) es) }
    ensures ok { IfOk result (λ es. TakesToEnd (line_of_event sizes.now) es lines.old) }
    ensures err { IfErr result (LacksEnd sizes.now lines.old) }
{
    let mut items = Vec::new(alloc);
    while add_event(&mut items, lines, sizes)? {}
    finish(lines)?;
    Ok(Events { items })
}

/// The greatest number of turns.
pub fn read_turns(lines: &mut Lines<'_>) -> Result<u64, ScheduleFault>
    ensures ok { IfOk result (λ n. TakesLine lines.old (l.Turns n) lines.new) }
    ensures err { IfErr result (IsUnwanted TellsTurns lines.old) }
{
    let Some(line) = lines.next() else {
        return Err(lines.excess());
    };
    match told_turns(&line) {
        Some(turns) => Ok(turns),
        None => Err(lines.misfit()),
    }
}

// Adds the next choice, or comes to the end and answers false.
fn add_choice(items: &mut Vec<u32>, lines: &mut Lines<'_>) -> Result<bool, ScheduleFault>
    requires { lines.old.format ≡ format.Choices }
    ensures ok { IfOk result (λ more. Adds l.Choose (λ k. Unit {0}) more lines.old lines.new items.old.items items.new.items) }
    ensures shorter { OnOk result (length lines.new.rest < length lines.old.rest) }
    ensures err { IfErr result (λ f. (sizes : Widths) → IsUnwanted (MayFollow sizes) lines.old f) }
{
    let Some(line) = lines.next() else {
        return Err(lines.excess());
    };
    if is_end(&line) {
        return Ok(false);
    }
    let Some(number) = told_choice(&line) else {
        return Err(lines.misfit());
    };
    items.push(number)?;
    Ok(true)
}

/// The choices up to the end, whatever the sizes are.
pub fn read_picks(alloc: Global, lines: &mut Lines<'_>) -> Result<Picks, ScheduleFault>
    requires { lines.old.format ≡ format.Choices }
    ensures ok { IfOk result (λ ks. TakesToEnd l.Choose ks lines.old) }
    ensures err { IfErr result (λ f. (sizes : Widths) → LacksEnd sizes lines.old f) }
{
    let mut items = Vec::new(alloc);
    while add_choice(&mut items, lines)? {}
    finish(lines)?;
    Ok(Picks { items })
}
