//! Lines of texts, read one after another.
ghost use Rattle.std.specs.Prelude.{◌≡◌, ◌+◌, ◌≤◌, ◌^◌, ◌++◌, ◌∷◌, [], Some as some, None as none, MatchOption, OnOk, length};
ghost use Rattle.brisk_derivtext.specs.Kept.{body_of, around, parts_of, reading_of, Counts, IsCounted, Stands};
ghost use Rattle.brisk_derivtext.specs.Lines.{line_text};
ghost use Rattle.brisk_derivtext.specs.Reading as text;
ghost use Rattle.brisk_derivtext.specs.declared.line.Format.TheVariants as format;

use crate::body::{Body, empty, put};
use crate::copies::{depth_of, then};
use crate::frame::Frame;
use crate::line::{Format, Line};
use crate::part::Part;
use crate::refusal::Refusal;
use brisk_values::{Name, NoMemory};
use std::alloc::Global;

const MOST_BYTES: u64 = 16_777_216;

const MOST_NESTED: u64 = 1024;

/// What the lines so far come to.
#[derive(Drop)]
pub struct Reading {
    pub frame: Frame,
    pub body: Body,
    /// The number of bytes of the lines of format 1 of the steps.
    pub bytes: u64,
}

/// Nothing was read.
pub fn start(alloc: Global) -> Reading
    ensures start { reading_of result ≡ text.start }
    ensures counted { IsCounted result }
{
    let frame = Frame {
        format: None,
        parts: Vec::new(alloc),
        part: None,
        main: false,
        ended: false,
    };
    Reading {
        frame,
        body: empty(alloc),
        bytes: 0,
    }
}

// The steps go on so, unless they have too many bytes.
fn go_on(frame: Frame, body: Body, bytes: u64) -> Result<Reading, Refusal>
    requires { Counts bytes (body_of body) }
    ensures { Stands (text.within_bytes (text.with_body (around frame text.empty) (body_of body))) result }
{
    if bytes > MOST_BYTES {
        return Err(Refusal::TooLong);
    }
    let mut frame = frame;
    frame.main = frame.main || frame.part.is_none();
    Ok(Reading { frame, body, bytes })
}

// A line of steps is read, which has so many bytes with the byte 10 at its end.
fn put_line(alloc: Global, reading: Reading, line: Line, bytes: u64) -> Result<Reading, Refusal>
    requires counted { IsCounted reading }
    requires line { bytes ≡ length (line_text line) + 1 }
    requires few { bytes ≤ 2 ^ 63 }
    ensures { Stands (text.bounded (text.with_steps (reading_of reading) (text.put line (body_of reading.body)))) result }
{
    let body = put(alloc, reading.body, line)?;
    go_on(reading.frame, body, reading.bytes + bytes)
}

/// The last part of this name.
pub fn named(parts: &[Part], name: Name) -> Option<&Part>
    ensures { MatchOption result (text.part_named name (parts_of parts.now) ≡ none) (λ p. text.part_named name (parts_of parts.now) ≡ some p.now.steps) }
{
    let mut found = None;
    for part in parts {
        if name == part.name {
            found = Some(part);
        }
    }
    found
}

// The steps of a part are used.
fn use_part(alloc: Global, reading: Reading, name: Name) -> Result<Reading, Refusal>
    requires { IsCounted reading }
    ensures { Stands (text.bounded (text.with_steps (reading_of reading) (text.used (body_of reading.body) (text.part_named name (parts_of reading.frame.parts.items))))) result }
{
    let frame = reading.frame;
    let body = reading.body;
    let Some(part) = named(&frame.parts, name) else {
        return Err(Refusal::NoLine);
    };
    let depth = depth_of(&part.steps);
    if depth.saturating_add(body.entered.len() as u64) > MOST_NESTED {
        return Err(Refusal::NoLine);
    }
    if part.bytes > MOST_BYTES - reading.bytes {
        return Err(Refusal::TooLong);
    }
    let bytes = reading.bytes + part.bytes;
    let steps = then(alloc, body.steps, &part.steps)?;
    let entered = body.entered;
    go_on(frame, Body { entered, steps }, bytes)
}

// No rule is entered that isn't closed.
fn is_whole(body: &Body) -> bool
    ensures { result ≡ text.is_whole (body_of body.now) }
{
    body.entered.is_empty()
}

// A part begins.
fn begin_part(alloc: Global, reading: Reading, name: Name) -> Result<Reading, Refusal>
    ensures { Stands (text.bounded (text.part_begun (reading_of reading) name)) result }
{
    let mut frame = reading.frame;
    let is_new = named(&frame.parts, name).is_none();
    if frame.part.is_some() || frame.main || !is_new {
        return Err(Refusal::NoLine);
    }
    frame.part = Some(name);
    Ok(Reading {
        frame,
        body: empty(alloc),
        bytes: 0,
    })
}

// There is one more part.
fn push_part(parts: &mut Vec<Part>, part: Part) -> Result<(), NoMemory>
    ensures { OnOk result (parts.new.items ≡ parts.old.items ++ part ∷ []) }
{
    parts.push(part)?;
    Ok(())
}

// A part ends.
fn end_part(alloc: Global, reading: Reading) -> Result<Reading, Refusal>
    requires { IsCounted reading }
    ensures { Stands (text.bounded (text.part_ended (reading_of reading) reading.frame.part)) result }
{
    let mut frame = reading.frame;
    let body = reading.body;
    let bytes = reading.bytes;
    let Some(name) = frame.part else {
        return Err(Refusal::NoLine);
    };
    if !is_whole(&body) {
        return Err(Refusal::NoLine);
    }
    let steps = body.steps;
    push_part(&mut frame.parts, Part { name, steps, bytes })?;
    frame.part = None;
    Ok(Reading {
        frame,
        body: empty(alloc),
        bytes: 0,
    })
}

// The text ends.
fn end(mut reading: Reading) -> Result<Reading, Refusal>
    requires { IsCounted reading }
    ensures { Stands (text.bounded (text.at_end (reading_of reading))) result }
{
    if reading.frame.part.is_some() || !is_whole(&reading.body) {
        return Err(Refusal::NoLine);
    }
    reading.frame.ended = true;
    Ok(reading)
}

// The first line is read.
fn at_head(mut reading: Reading, line: Line) -> Result<Reading, Refusal>
    requires { IsCounted reading }
    ensures { Stands (text.bounded (text.at_head (reading_of reading) line)) result }
{
    match line {
        Line::Head(format) => {
            reading.frame.format = Some(format);
            Ok(reading)
        }
        _ => Err(Refusal::NoLine),
    }
}

// A line behind the head of a text of the first format.
fn in_first(alloc: Global, reading: Reading, line: Line, bytes: u64) -> Result<Reading, Refusal>
    requires counted { IsCounted reading }
    requires line { bytes ≡ length (line_text line) + 1 }
    requires few { bytes ≤ 2 ^ 63 }
    ensures { Stands (text.bounded (text.behind_head format.Format1 (reading_of reading) line)) result }
{
    match line {
        Line::End => end(reading),
        _ => put_line(alloc, reading, line, bytes),
    }
}

// A line behind the head of a text of the second format.
fn in_second(alloc: Global, reading: Reading, line: Line, bytes: u64) -> Result<Reading, Refusal>
    requires counted { IsCounted reading }
    requires line { bytes ≡ length (line_text line) + 1 }
    requires few { bytes ≤ 2 ^ 63 }
    ensures { Stands (text.bounded (text.behind_head format.Format2 (reading_of reading) line)) result }
{
    match line {
        Line::End => end(reading),
        Line::Part(name) => begin_part(alloc, reading, name),
        Line::EndPart => end_part(alloc, reading),
        Line::Use(name) => use_part(alloc, reading, name),
        _ => put_line(alloc, reading, line, bytes),
    }
}

/// The next line is read, which has so many bytes with the byte 10 at its end.
pub fn stand(alloc: Global, reading: Reading, line: Line, bytes: u64) -> Result<Reading, Refusal>
    requires counted { IsCounted reading }
    requires line { bytes ≡ length (line_text line) + 1 }
    requires few { bytes ≤ 2 ^ 63 }
    ensures { Stands (text.read_line (reading_of reading) line) result }
{
    if reading.frame.ended {
        return Err(Refusal::NoLine);
    }
    match reading.frame.format {
        None => at_head(reading, line),
        Some(Format::Format1) => in_first(alloc, reading, line, bytes),
        Some(Format::Format2) => in_second(alloc, reading, line, bytes),
    }
}
