//! Lines, read.
ghost use Rattle.std.specs.Prelude.{◌≡◌, ◌++◌, codes, MatchOption, IfSome};
ghost use Rattle.std.specs.Prelude.{List, ℕ};
ghost use Rattle.brisk_lines.specs.declared.line.Line.{Line as ALine};
ghost use Rattle.brisk_lines.specs.Lines.{BeginsWith, Reads, line_text, IsLegal, place_text, IsShort};
ghost use Rattle.brisk_lines.specs.Pieces.{end_text, IsLegalEnd, given_text, IsLegalGiven, size_text, IsSize, IsNoPlain};

use crate::line::{Line, Process};
use crate::numbers::{number_in, short_in};
use crate::parts::{behind, cut, process_in, value_in};
use brisk_lex::name_in;
use brisk_values::{Name, Value};

const GREATEST_SIZE: u32 = 1_000_000;

fn size_in(bytes: &[u8]) -> Option<u32>
    ensures { Reads size_text IsSize bytes.now result }
{
    let size = short_in(behind(bytes, b" ")?)?;
    if size > GREATEST_SIZE {
        return None;
    }
    Some(size)
}

fn size_line(rest: &[u8]) -> Option<Line>
    ensures { Reads line_text IsLegal (codes "size " ++ rest.now) result }
{
    let (set, end) = cut(rest, b' ');
    let set = name_in(set)?;
    let size = size_in(end)?;
    Some(Line::Size(set, size))
}

fn given_in(bytes: &[u8]) -> Option<(Name, Value)>
    ensures { Reads given_text IsLegalGiven bytes.now result }
{
    let (variable, end) = cut(behind(bytes, b".")?, b' ');
    let variable = name_in(variable)?;
    let value = value_in(behind(end, b" = ")?)?;
    Some((variable, value))
}

fn input_line(rest: &[u8]) -> Option<Line>
    ensures { Reads line_text IsLegal (codes "input " ++ rest.now) result }
{
    let (process, end) = cut(rest, b'.');
    let process = process_in(process)?;
    let (variable, value) = given_in(end)?;
    Some(Line::Input(process, variable, value))
}

fn place_in(bytes: &[u8]) -> Option<Option<u32>>
    ensures { Reads place_text (λ n. IfSome n IsShort) bytes.now result }
{
    if bytes.is_empty() {
        return Some(None);
    }
    let place = short_in(behind(bytes, b" at ")?)?;
    Some(Some(place))
}

fn end_in(bytes: &[u8]) -> Option<(Option<Process>, Option<u32>)>
    ensures { Reads end_text IsLegalEnd bytes.now result }
{
    let Some(after) = behind(bytes, b" from ") else {
        return Some((None, place_in(bytes)?));
    };
    let (sender, end) = cut(after, b' ');
    let sender = process_in(sender)?;
    let place = place_in(end)?;
    Some((Some(sender), place))
}

fn event_line(rest: &[u8]) -> Option<Line>
    ensures { Reads line_text IsLegal (codes "event " ++ rest.now) result }
{
    let (process, end) = cut(rest, b' ');
    let process = process_in(process)?;
    let (sender, place) = end_in(end)?;
    Some(Line::Event(process, sender, place))
}

fn turns_line(rest: &[u8]) -> Option<Line>
    ensures { Reads line_text IsLegal (codes "turns " ++ rest.now) result }
{
    let turns = number_in(rest)?;
    Some(Line::Turns(turns))
}

fn choose_line(rest: &[u8]) -> Option<Line>
    ensures { Reads line_text IsLegal (codes "choose " ++ rest.now) result }
{
    let number = short_in(rest)?;
    Some(Line::Choose(number))
}

/// A line that has no parts.
fn plain_line(bytes: &[u8]) -> Option<Line>
    ensures { MatchOption result (IsNoPlain bytes.now) (λ l. (bytes.now ≡ line_text l) × IsLegal l) }
{
    if bytes == b"end".as_slice() {
        Some(Line::End)
    } else if bytes == b"brisk schedule 1".as_slice() {
        Some(Line::Schedule)
    } else if bytes == b"brisk choices 1".as_slice() {
        Some(Line::Choices)
    } else {
        None
    }
}

/// The line with these bytes, which have no byte 10 at their end. The numbers of a process, an event and a choice are
/// at most 4,294,967,295, a size is at most 1,000,000, and no number has a leading zero.
pub fn read_line(bytes: &[u8]) -> Option<Line>
    ensures { Reads line_text IsLegal bytes.now result }
{
    if let Some(rest) = behind(bytes, b"size ") {
        size_line(rest)
    } else if let Some(rest) = behind(bytes, b"input ") {
        input_line(rest)
    } else if let Some(rest) = behind(bytes, b"event ") {
        event_line(rest)
    } else if let Some(rest) = behind(bytes, b"turns ") {
        turns_line(rest)
    } else if let Some(rest) = behind(bytes, b"choose ") {
        choose_line(rest)
    } else {
        plain_line(bytes)
    }
}

/// The line at the front of a text, which byte 10 ends, and what stands behind it.
pub fn first_line(text: &[u8]) -> Option<(Line, &[u8])>
    ensures { MatchOption result ((l : ALine) (more : List ℕ) → BeginsWith text.now l more → ⊥) (λ r. BeginsWith text.now r.0 r.1.now) }
{
    let (front, end) = cut(text, b'\n');
    let rest = behind(end, b"\n")?;
    let line = read_line(front)?;
    Some((line, rest))
}
