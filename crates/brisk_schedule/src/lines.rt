//! The lines of a text, one after another.
ghost use Rattle.std.specs.Prelude.{◌≡◌, ◌+◌, ◌<◌, [], ◌↔◌, IfNone, IfSome, IsTrue, length};
ghost use Rattle.brisk_schedule.specs.Reading.{HasNoLine, has_line as is_of_format};
ghost use Rattle.brisk_schedule.specs.Taking.{TakesLine};

use crate::fault::ScheduleFault;
use crate::format::Format;
use brisk_lines::{Line, first_line};
use std::marker::Model;

/// What is left of a text, and how many of its lines were taken.
#[derive(Drop)]
pub struct Lines<'a> {
    format: Format,
    rest: &'a [u8],
    number: u64,
}

impl<'a> Model for Lines<'a> {
    ghost use Rattle.std.specs.Prelude.{length, ◌+◌, ◌^◌, ◌<◌};
    ghost use Rattle.brisk_schedule.specs.Taking.{Left};

    ghost Value = { Left };

    ghost view = { λ l. record { format = l.format; rest = l.rest.now; number = l.number } };

    ghost invariant = { λ l. l.number + length l.rest.now < 2 ^ 63 };
}

// Whether a text of the format has such lines.
fn has_line(format: Format, line: &Line) -> bool
    ensures { result ≡ is_of_format format line.now }
{
    match line {
        Line::Schedule | Line::Event(_, _, _) => format == Format::Schedule,
        Line::Choices | Line::Turns(_) | Line::Choose(_) => format == Format::Choices,
        Line::Size(_, _) | Line::Input(_, _, _) | Line::End => true,
    }
}

impl<'a> Lines<'a> {
    /// The lines of this text.
    pub fn new(format: Format, text: &'a [u8]) -> Lines<'a>
        ensures { result ≡ record { format = format; rest = text.entry.now; number = 0 } }
    {
        Lines {
            format,
            rest: text,
            number: 0,
        }
    }

    /// Takes the next line, if one of the format stands there, which byte 10 ends.
    pub fn next(&mut self) -> Option<Line>
        ensures some { IfSome result (λ l. TakesLine self.old l self.new) }
        ensures none { IfNone result (HasNoLine self.old.format self.old.rest) }
        ensures kept { IfNone result (self.new ≡ self.old) }
        ensures shorter { IfSome result (λ _. length self.new.rest < length self.old.rest) }
    {
        if let Some((line, rest)) = first_line(self.rest) {
            if has_line(self.format, &line) {
                self.rest = rest;
                self.number += 1;
                return Some(line);
            }
        }
        None
    }

    /// That the line that was taken last isn't the one that is needed.
    pub fn misfit(&self) -> ScheduleFault
        ensures { result ≡ ScheduleFault.Misfit self.now.number }
    {
        ScheduleFault::Misfit(self.number)
    }

    /// That what stands behind the lines that were taken isn't a line of the text.
    pub fn excess(&self) -> ScheduleFault
        ensures { result ≡ ScheduleFault.Text (self.now.number + 1) }
    {
        let _invariant = &self.rest;
        ScheduleFault::Text(self.number + 1)
    }

    /// How many lines were taken.
    pub fn taken(&self) -> u64
        ensures { result ≡ self.now.number }
    {
        self.number
    }

    /// Whether nothing is left.
    pub fn is_empty(&self) -> bool
        ensures { IsTrue result ↔ (self.now.rest ≡ []) }
    {
        self.rest.is_empty()
    }
}
