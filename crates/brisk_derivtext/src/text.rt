//! Texts of derivations, read.
ghost use Rattle.std.specs.Prelude.{◌≡◌, ◌+◌, ◌<◌, ◌≤◌, ◌^◌, true, List, [], ℕ, IfOk, IfErr, length};
ghost use Rattle.brisk_derivtext.specs.Kept.{Causes, SoFar};
ghost use Rattle.brisk_derivtext.specs.Lined.{GoesOn};
ghost use Rattle.brisk_derivtext.specs.Reading.{IsRead};
ghost use Rattle.brisk_derivtext.specs.declared.line.Format.{Format};

use crate::fault::DerivFault;
use crate::reader::Lines;
use crate::words::cut;
use brisk_derivation::Steps;
use std::alloc::Global;

// The first line of the rest is read. The number is that of its bytes with the byte 10 at its end.
fn next(lines: Lines, rest: &[u8]) -> Result<(Lines, usize), DerivFault>
    requires { lines.count + length rest.now < 2 ^ 63 }
    ensures count { IfOk result (λ r. r.0.count ≡ lines.count + 1) }
    ensures bytes { IfOk result (λ r. (0 < r.1) × (r.1 ≤ length rest.now)) }
    ensures goes_on { (text : List ℕ) → SoFar text rest.now lines.reading lines.count → ((lines.reading.ended ≡ true) × (rest.now ≡ []) → ⊥) → GoesOn text rest.now result }
{
    let (bytes, end) = cut(rest, b'\n');
    if end.is_empty() {
        return Err(DerivFault::Line(lines.count() + 1));
    }
    let (lines, _line) = lines.read(bytes)?;
    Ok((lines, bytes.len() + 1))
}

/// The derivation whose text this is, of either format.
pub fn read(alloc: Global, text: &[u8]) -> Result<Steps, DerivFault>
    ensures ok { IfOk result (λ D. (f : Format) × IsRead f text.now D) }
    ensures cause { IfErr result (Causes text.now) }
{
    let mut lines = Lines::start(alloc);
    let mut rest = text;
    while !(lines.is_ended() && rest.is_empty()) {
        let (one_more, bytes) = next(lines, rest)?;
        lines = one_more;
        rest = rest.split_at(bytes).1;
    }
    lines.steps()
}
