//! The words of a line, read.
ghost use Rattle.std.specs.Prelude.{◌≡◌, ◌++◌, ◌∷◌, [], ◌<◌, ◌^◌, List, ℕ, Some, IfOk, MatchOption};
ghost use Rattle.std.specs.Fmt.{decimal};
ghost use Rattle.std.specs.List.{AllByRecursion};
ghost use Rattle.brisk_lex.specs.Spelled.{IsName};
ghost use Rattle.brisk_lines.specs.Lines.{Reads, IsShort};
ghost use Rattle.brisk_lines.specs.Pieces.{Begins, IsCut};
ghost use Rattle.brisk_derivtext.specs.Lines.{fact_text, spaced, IsLegalFact};
ghost use Rattle.brisk_derivtext.specs.Pieces.{facts_text, fill_text, for_text, message_text, owners_text, rule_text, AreNames, AreOwners, BeginsWithWord, IsBox, IsFill, IsFor, IsMessage, IsRule};

use brisk_derivation::{Drops, Fact};
use brisk_lex::name_in;
use brisk_syntax::Names;
use brisk_values::{Name, NoMemory};
use itoa::Buffer;
use std::alloc::Global;
use std::str::from_utf8;

const MOST_BOXES: u32 = 1_000_000;

/// The bytes before the first such byte, and those from there on.
pub fn cut(bytes: &[u8], end: u8) -> (&[u8], &[u8])
    ensures { IsCut end bytes.now result.0.now result.1.now }
{
    for (i, byte) in bytes.iter().enumerate() {
        if *byte == end {
            return bytes.split_at(i);
        }
    }
    (bytes, &[])
}

/// The bytes behind this front.
pub fn behind<'a>(bytes: &'a [u8], front: &[u8]) -> Option<&'a [u8]>
    ensures { MatchOption result ((rest : List ℕ) → bytes.now ≡ front.now ++ rest → ⊥) (λ rest. bytes.now ≡ front.now ++ rest.now) }
{
    bytes.strip_prefix(front)
}

// The word behind a space at the front, and what stands behind it.
fn first_word(bytes: &[u8]) -> Option<(&[u8], &[u8])>
    ensures { MatchOption result ((more : List ℕ) → bytes.now ≡ 32 ∷ more → ⊥) (λ r. BeginsWithWord bytes.now r.0.now r.1.now) }
{
    let rest = behind(bytes, b" ")?;
    Some(cut(rest, b' '))
}

/// The only word behind a space, which is a name.
pub fn only_name(bytes: &[u8]) -> Option<Name>
    ensures { Reads (λ t. spaced (t ∷ [])) IsName bytes.now result }
{
    let (name, rest) = first_word(bytes)?;
    if !rest.is_empty() {
        return None;
    }
    name_in(name)
}

/// A sender, a receiver and a channel.
pub fn message(bytes: &[u8]) -> Option<(Name, Name, Name)>
    ensures { Reads message_text IsMessage bytes.now result }
{
    let (sender, rest) = first_word(bytes)?;
    let (receiver, rest) = first_word(rest)?;
    let channel = only_name(rest)?;
    Some((name_in(sender)?, name_in(receiver)?, channel))
}

fn parsed_number(bytes: &[u8]) -> Option<u64>
    ensures { (n : ℕ) → n < 2 ^ 64 → bytes.now ≡ decimal n → result ≡ Some n }
{
    from_utf8(bytes).ok()?.parse().ok()
}

fn number_in(bytes: &[u8]) -> Option<u64>
    ensures { Reads decimal (λ n. n < 2 ^ 64) bytes.now result }
{
    let number = parsed_number(bytes)?;
    if Buffer::new().format(number).as_bytes() == bytes {
        Some(number)
    } else {
        None
    }
}

fn short_in(bytes: &[u8]) -> Option<u32>
    ensures { Reads decimal IsShort bytes.now result }
{
    let number = number_in(bytes)?;
    u32::try_from(number).ok()
}

/// The number of a box.
pub fn box_in(bytes: &[u8]) -> Option<u32>
    ensures { Reads decimal IsBox bytes.now result }
{
    let number = short_in(bytes)?;
    if number == 0 || number > MOST_BOXES {
        return None;
    }
    Some(number)
}

fn fact_in(bytes: &[u8]) -> Option<Fact>
    ensures { Reads fact_text IsLegalFact bytes.now result }
{
    let (at, rest) = cut(bytes, b'.');
    let at = name_in(at)?;
    let variable = name_in(behind(rest, b".")?)?;
    Some(Fact { at, variable })
}

// Adds the names at the front, and answers what stands behind them.
fn first_names<'a>(names: &mut Vec<Name>, bytes: &'a [u8]) -> Result<&'a [u8], NoMemory>
    requires nothing { names.old.items ≡ [] }
    requires starts { Begins 32 bytes.now }
    ensures { IfOk result (λ rest. AreNames bytes.now names.new.items rest.now) }
{
    let mut rest = bytes;
    while let Some((word, after)) = first_word(rest) {
        let Some(name) = name_in(word) else {
            return Ok(rest);
        };
        names.push(name)?;
        rest = after;
    }
    Ok(rest)
}

// The facts that these words are.
fn facts_in(alloc: Global, bytes: &[u8]) -> Result<Option<Drops>, NoMemory>
    requires { Begins 32 bytes.now }
    ensures { IfOk result (λ o. Reads facts_text (AllByRecursion IsLegalFact) bytes.now o) }
{
    let mut items = Vec::new(alloc);
    let mut rest = bytes;
    while let Some((word, after)) = first_word(rest) {
        let Some(fact) = fact_in(word) else {
            return Ok(None);
        };
        items.push(fact)?;
        rest = after;
    }
    Ok(Some(Drops { items }))
}

/// Owners, the word `drop`, and the facts that are dropped.
pub fn owners(alloc: Global, bytes: &[u8]) -> Result<Option<(Names, Drops)>, NoMemory>
    requires { Begins 32 bytes.now }
    ensures { IfOk result (λ o. Reads owners_text AreOwners bytes.now o) }
{
    let mut items = Vec::new(alloc);
    let rest = first_names(&mut items, bytes)?;
    let Some(drops) = facts_in(alloc, rest)? else {
        return Ok(None);
    };
    let Some(word) = items.pop() else {
        return Ok(None);
    };
    if word.bytes() == b"drop".as_slice() {
        Ok(Some((Names { items }, drops)))
    } else {
        Ok(None)
    }
}

/// A sender, a receiver, a channel and the number of a box.
pub fn fill(bytes: &[u8]) -> Option<(Name, Name, Name, u32)>
    ensures { Reads fill_text IsFill bytes.now result }
{
    let (sender, rest) = first_word(bytes)?;
    let (receiver, rest) = first_word(rest)?;
    let (channel, rest) = first_word(rest)?;
    let (number, rest) = first_word(rest)?;
    if !rest.is_empty() {
        return None;
    }
    let sender = name_in(sender)?;
    let receiver = name_in(receiver)?;
    let channel = name_in(channel)?;
    Some((sender, receiver, channel, box_in(number)?))
}

/// A name, the word `drop`, and the facts that are dropped.
pub fn rule(alloc: Global, bytes: &[u8]) -> Result<Option<(Name, Drops)>, NoMemory>
    ensures { IfOk result (λ o. Reads rule_text IsRule bytes.now o) }
{
    let Some((word, rest)) = first_word(bytes) else {
        return Ok(None);
    };
    let Some(name) = name_in(word) else {
        return Ok(None);
    };
    let Some((names, drops)) = owners(alloc, rest)? else {
        return Ok(None);
    };
    if names.items.is_empty() {
        Ok(Some((name, drops)))
    } else {
        Ok(None)
    }
}

/// A set, the word `by`, owners, the word `drop`, and the facts that are dropped.
pub fn for_rule(alloc: Global, bytes: &[u8]) -> Result<Option<(Name, Names, Drops)>, NoMemory>
    ensures { IfOk result (λ o. Reads for_text IsFor bytes.now o) }
{
    let Some((word, rest)) = first_word(bytes) else {
        return Ok(None);
    };
    let Some(set) = name_in(word) else {
        return Ok(None);
    };
    let Some((word, rest)) = first_word(rest) else {
        return Ok(None);
    };
    if word != b"by".as_slice() {
        return Ok(None);
    }
    let Some((names, drops)) = owners(alloc, rest)? else {
        return Ok(None);
    };
    Ok(Some((set, names, drops)))
}
