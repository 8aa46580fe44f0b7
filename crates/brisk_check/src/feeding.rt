//! Pieces of a text, fed one after another.
ghost use Rattle.std.specs.Prelude.{◌≡◌, ◌<◌, ◌≤◌, ◌++◌, IfOk, IfErr, Ok as okay, if◌then◌else◌, length};
ghost use Rattle.brisk_basic.specs.Outcomes.{and_then};
ghost use Rattle.brisk_loops.specs.WalkKept.{kept_all};
ghost use Rattle.brisk_loops.specs.WalkSeen.{Tells};
ghost use Rattle.brisk_check.specs.Checking.{calls_in, stands_for};
ghost use Rattle.brisk_check.specs.Working.{path_of, work_of, AllFed, LineRead, SomeFed};

use crate::part::take_all;
use crate::work::{Path, Work};
use brisk_derivation::{SideFault, Step};
use brisk_derivtext::{DerivFault, Line, Lines, around, cut, no_steps};
use brisk_loops::{AcceptFault, Walk, Why};
use brisk_values::NoMemory;
use std::alloc::Global;

// Makes the calls of a line of the main steps, which was read last.
fn make(alloc: Global, walk: &mut Walk, lines: &Lines, line: Line) -> Result<(), AcceptFault>
    ensures ok { IfOk result (λ _. kept_all (calls_in (stands_for lines.now.reading line)) walk.old ≡ okay walk.new) }
    ensures cause { IfErr result (λ f. Tells (kept_all (calls_in (stands_for lines.now.reading line)) walk.old) f) }
{
    let _fault: Option<SideFault> = None;
    let _why: Option<Why> = None;
    match line {
        Line::Plain(step) => walk.basic(&step),
        Line::Fork(t) => walk.enter(&Step::Branch(t, no_steps(alloc), no_steps(alloc))),
        Line::Enter(rule) => walk.enter(&around(rule, no_steps(alloc))),
        Line::Else => walk.other(),
        Line::Join | Line::Close => walk.leave(),
        Line::Use(name) => match lines.part(name) {
            Some(steps) => take_all(walk, steps),
            None => Ok(()),
        },
        _ => Ok(()),
    }
}

// The same, unless a call has failed.
fn go_on(alloc: Global, path: Path, lines: &Lines, line: Line) -> Result<Path, NoMemory>
    ensures { IfOk result (λ p. path_of p ≡ and_then (path_of path) (kept_all (calls_in (stands_for lines.now.reading line)))) }
{
    match path {
        Path::Fails(at, why) => Ok(Path::Fails(at, why)),
        Path::Walks(mut walk) => match make(alloc, &mut walk, lines, line) {
            Ok(()) => Ok(Path::Walks(walk)),
            Err(AcceptFault::Bad(at, why)) => Ok(Path::Fails(at, why)),
            Err(AcceptFault::NoMemory) => Err(NoMemory),
        },
    }
}

// The same, but in a part no call is made.
fn after_line(
    alloc: Global,
    in_part: bool,
    path: Path,
    lines: &Lines,
    line: Line,
) -> Result<Path, NoMemory>
    ensures { IfOk result (λ p. path_of p ≡ (if in_part then path_of path else and_then (path_of path) (kept_all (calls_in (stands_for lines.now.reading line))))) }
{
    if in_part {
        Ok(path)
    } else {
        go_on(alloc, path, lines, line)
    }
}

// The bytes kept are a whole line, which is read.
fn take_line(alloc: Global, work: Work) -> Result<Work, DerivFault>
    ensures { LineRead (work_of work) result }
{
    let in_part = work.lines.is_in_part();
    let (lines, line) = work.lines.read(&work.rest)?;
    let path = after_line(alloc, in_part, work.path, &lines, line)?;
    Ok(Work {
        rest: Vec::new(alloc),
        lines,
        path,
    })
}

// The bytes, and these behind them.
fn joined(mut bytes: Vec<u8>, more: &[u8]) -> Result<Vec<u8>, NoMemory>
    ensures { IfOk result (λ v. v.items ≡ bytes.items ++ more.now) }
{
    bytes.extend_from_slice(more)?;
    Ok(bytes)
}

// The bytes up to the end of the first line are fed, or all where no line ends; and their number is told.
fn feed_line(alloc: Global, work: Work, left: &[u8]) -> Result<(Work, usize), DerivFault>
    requires { 0 < length left.now }
    ensures bytes { IfOk result (λ r. (0 < r.1) × (r.1 ≤ length left.now)) }
    ensures fed { SomeFed (work_of work) left.now result }
{
    let (front, end) = cut(left, b'\n');
    let work = Work {
        rest: joined(work.rest, front)?,
        lines: work.lines,
        path: work.path,
    };
    if end.is_empty() {
        return Ok((work, front.len()));
    }
    Ok((take_line(alloc, work)?, front.len() + 1))
}

/// The piece is fed.
pub fn feed_all(alloc: Global, work: Work, piece: &[u8]) -> Result<Work, DerivFault>
    ensures { AllFed (work_of work) piece.now result }
{
    let mut work = work;
    let mut left = piece;
    while !left.is_empty() {
        let (more, bytes) = feed_line(alloc, work, left)?;
        work = more;
        left = left.split_at(bytes).1;
    }
    Ok(work)
}
