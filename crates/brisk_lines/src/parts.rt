//! The parts of a line: processes and values, each read where its whole text stands.
ghost use Rattle.std.specs.Prelude.{◌≡◌, ◌++◌, List, ℕ, MatchOption, IfSome};
ghost use Rattle.brisk_lex.specs.Spelled.{IsName};
ghost use Rattle.brisk_text.specs.Values.{value_text};
ghost use Rattle.brisk_lines.specs.Lines.{Reads, member_text, process_text, IsShort, IsLegalProcess, IsLegalValue};
ghost use Rattle.brisk_lines.specs.Pieces.{IsCut, tag_text, IsLegalTag};

use crate::line::Process;
use crate::numbers::{integer_in, short_in};
use brisk_lex::name_in;
use brisk_values::{Name, Value};

/// The bytes before the first such byte, and those from there on.
pub fn cut(bytes: &[u8], end: u8) -> (&[u8], &[u8])
    ensures { IsCut end bytes.now result.0.now result.1.now }
{
    for (i, byte) in bytes.iter().enumerate() {
        if *byte == end {
            return bytes.split_at(i);
        }
    }
    (bytes, &[])
}

/// The bytes behind this front.
pub fn behind<'a>(bytes: &'a [u8], front: &[u8]) -> Option<&'a [u8]>
    ensures { MatchOption result ((rest : List ℕ) → bytes.now ≡ front.now ++ rest → ⊥) (λ rest. bytes.now ≡ front.now ++ rest.now) }
{
    bytes.strip_prefix(front)
}

fn member_in(bytes: &[u8]) -> Option<Option<u32>>
    ensures { Reads member_text (λ k. IfSome k IsShort) bytes.now result }
{
    if bytes.is_empty() {
        return Some(None);
    }
    let number = behind(bytes, b"[")?.strip_suffix(b"]")?;
    Some(Some(short_in(number)?))
}

pub fn process_in(bytes: &[u8]) -> Option<Process>
    ensures { Reads process_text IsLegalProcess bytes.now result }
{
    let (role, rest) = cut(bytes, b'[');
    let role = name_in(role)?;
    let member = member_in(rest)?;
    Some(Process { role, member })
}

/// A tag's enumeration and its name.
fn tag_in(bytes: &[u8]) -> Option<(Name, Name)>
    ensures { Reads tag_text IsLegalTag bytes.now result }
{
    let (enumeration, rest) = cut(bytes, b'.');
    let enumeration = name_in(enumeration)?;
    let tag = name_in(behind(rest, b".")?)?;
    Some((enumeration, tag))
}

pub fn value_in(bytes: &[u8]) -> Option<Value>
    ensures { Reads value_text IsLegalValue bytes.now result }
{
    if let Some(number) = integer_in(bytes) {
        return Some(Value::Int(number));
    }
    if bytes == b"true".as_slice() {
        Some(Value::Bool(true))
    } else if bytes == b"false".as_slice() {
        Some(Value::Bool(false))
    } else {
        let (enumeration, tag) = tag_in(bytes)?;
        Some(Value::Tag(enumeration, tag))
    }
}
