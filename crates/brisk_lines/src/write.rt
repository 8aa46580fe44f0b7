//! Lines, written at the end of a text.
ghost use Rattle.std.specs.Prelude.{◌≡◌, ◌++◌, OnOk, codes};
ghost use Rattle.brisk_lines.specs.Lines.{line_text, process_text, sender_text, place_text};

use crate::line::{Line, Process};
use brisk_text::{put, put_number, put_value};
use brisk_values::NoMemory;

/// Writes a process as its role, or as its set and its number there in brackets.
pub fn put_process(out: &mut Vec<u8>, process: &Process) -> Result<(), NoMemory>
    ensures { OnOk result (out.new.items ≡ out.old.items ++ process_text process.now) }
{
    put(out, process.role.bytes())?;
    let Some(member) = process.member else {
        return Ok(());
    };
    put(out, b"[")?;
    put_number(out, u64::from(member))?;
    put(out, b"]")
}

fn put_sender(out: &mut Vec<u8>, sender: &Option<Process>) -> Result<(), NoMemory>
    ensures { OnOk result (out.new.items ≡ out.old.items ++ sender_text sender.now) }
{
    let Some(process) = sender else {
        return Ok(());
    };
    put(out, b" from ")?;
    put_process(out, process)
}

fn put_place(out: &mut Vec<u8>, place: Option<u32>) -> Result<(), NoMemory>
    ensures { OnOk result (out.new.items ≡ out.old.items ++ place_text place) }
{
    let Some(number) = place else {
        return Ok(());
    };
    put(out, b" at ")?;
    put_number(out, u64::from(number))
}

fn put_text(out: &mut Vec<u8>, line: &Line) -> Result<(), NoMemory>
    ensures { OnOk result (out.new.items ≡ out.old.items ++ line_text line.now) }
{
    match line {
        Line::Schedule => put(out, b"brisk schedule 1"),
        Line::Choices => put(out, b"brisk choices 1"),
        Line::Size(set, size) => {
            put(out, b"size ")?;
            put(out, set.bytes())?;
            put(out, b" ")?;
            put_number(out, u64::from(*size))
        }
        Line::Input(process, variable, value) => {
            put(out, b"input ")?;
            put_process(out, process)?;
            put(out, b".")?;
            put(out, variable.bytes())?;
            put(out, b" = ")?;
            put_value(out, value)
        }
        Line::Event(process, sender, place) => {
            put(out, b"event ")?;
            put_process(out, process)?;
            put_sender(out, sender)?;
            put_place(out, *place)
        }
        Line::Turns(turns) => {
            put(out, b"turns ")?;
            put_number(out, *turns)
        }
        Line::Choose(number) => {
            put(out, b"choose ")?;
            put_number(out, u64::from(*number))
        }
        Line::End => put(out, b"end"),
    }
}

/// Writes the line and the byte 10 at its end.
pub fn put_line(out: &mut Vec<u8>, line: &Line) -> Result<(), NoMemory>
    ensures { OnOk result (out.new.items ≡ out.old.items ++ line_text line.now ++ codes "\n") }
{
    put_text(out, line)?;
    put(out, b"\n")
}
