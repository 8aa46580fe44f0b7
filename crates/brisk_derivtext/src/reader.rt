//! A derivation's text, read line by line.
ghost use Rattle.std.specs.Prelude.{◌≡◌, false, IfOk, IfErr, MatchOption, Some as some, None as none, is_none, not, true};
ghost use Rattle.brisk_derivtext.specs.Lined.{early, unread, Refuses, Takes};
ghost use Rattle.brisk_derivtext.specs.Reading.{part_named};

use crate::copies::copy_line;
use crate::fault::DerivFault;
use crate::line::Line;
use crate::parsing::read_line;
use crate::reading::{Reading, named, stand, start};
use crate::refusal::fault_at;
use brisk_derivation::Steps;
use brisk_values::Name;
use std::alloc::Global;
use std::marker::Model;

/// The reader of a derivation's text, of either format, line by line.
#[derive(Drop)]
pub struct Lines {
    alloc: Global,
    reading: Reading,
    // It stays at the greatest `u64`.
    count: u64,
}

impl Model for Lines {
    ghost use Rattle.brisk_derivtext.specs.Kept.{reading_of, IsCounted};
    ghost use Rattle.brisk_derivtext.specs.Lined.{Lined};
    ghost use Rattle.brisk_derivtext.specs.LinedStored.{coded_lined};

    ghost Value = { Lined };

    ghost coded = { coded_lined };

    ghost view = { λ s. record { count = s.count; reading = reading_of s.reading } };

    ghost invariant = { λ s. IsCounted s.reading };
}

impl Lines {
    /// Nothing was read.
    pub fn start(alloc: Global) -> Lines
        ensures { result ≡ unread }
    {
        Lines {
            alloc,
            reading: start(alloc),
            count: 0,
        }
    }

    /// The reader after the next line, which has these bytes without its byte 10, and that line. After a refusal there is no
    /// reader any more.
    pub fn read(self, bytes: &[u8]) -> Result<(Lines, Line), DerivFault>
        ensures ok { IfOk result (λ r. Takes self bytes.now r.1 r.0) }
        ensures cause { IfErr result (Refuses self bytes.now) }
    {
        let alloc = self.alloc;
        let count = self.count.saturating_add(1);
        let Some(line) = read_line(alloc, bytes)? else {
            return Err(DerivFault::Line(count));
        };
        let told = copy_line(alloc, &line)?;
        match stand(alloc, self.reading, line, bytes.len() as u64 + 1) {
            Ok(reading) => Ok((
                Lines {
                    alloc,
                    reading,
                    count,
                },
                told,
            )),
            Err(refusal) => Err(fault_at(refusal, count)),
        }
    }

    /// How many lines were read; it stays at the greatest `u64` where it would pass it.
    pub fn count(&self) -> u64
        ensures { result ≡ self.now.count }
    {
        self.count
    }

    /// Whether the end was read.
    pub fn is_ended(&self) -> bool
        ensures { result ≡ self.now.reading.ended }
    {
        self.reading.frame.ended
    }

    /// Whether a part is being read.
    pub fn is_in_part(&self) -> bool
        ensures { result ≡ not (is_none self.now.reading.part) }
    {
        self.reading.frame.part.is_some()
    }

    /// The steps of the part of this name.
    pub fn part(&self, name: Name) -> Option<&Steps>
        ensures { MatchOption result (part_named name self.now.reading.parts ≡ none) (λ a. part_named name self.now.reading.parts ≡ some a.now) }
    {
        match named(&self.reading.frame.parts, name) {
            Some(part) => Some(&part.steps),
            None => None,
        }
    }

    /// The steps of a text whose end was read.
    pub fn steps(self) -> Result<Steps, DerivFault>
        ensures ok { IfOk result (λ a. (self.reading.ended ≡ true) × (a ≡ self.reading.body.steps)) }
        ensures cause { IfErr result (λ f. (self.reading.ended ≡ false) × (f ≡ early self)) }
    {
        if !self.reading.frame.ended {
            return Err(DerivFault::Line(self.count.saturating_add(1)));
        }
        let body = self.reading.body;
        Ok(body.steps)
    }
}
