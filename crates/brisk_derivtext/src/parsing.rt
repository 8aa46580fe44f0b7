//! Lines, read.
ghost use Rattle.std.specs.Prelude.{◌≡◌, true, IfOk};
ghost use Rattle.brisk_lines.specs.Lines.{Reads};
ghost use Rattle.brisk_derivtext.specs.Lines.{line_text, IsLegal};
ghost use Rattle.brisk_derivtext.specs.Pieces.{tail_text, IsOf};
ghost use Rattle.brisk_derivtext.specs.Keywords.{is_bare, is_named, is_sent, is_dropping};
ghost use Rattle.brisk_derivtext.specs.declared.keyword.Keyword.TheVariants as keyword;

use crate::keyword::{Keyword, keyword_in};
use crate::line::{Format, Line, Loop};
use crate::words::{cut, fill, for_rule, message, only_name, rule};
use brisk_derivation::BasicStep;
use brisk_values::NoMemory;
use std::alloc::Global;

// The head of a text, behind its first word.
fn head(rest: &[u8]) -> Option<Line>
    ensures { Reads tail_text (IsOf keyword.Brisk) rest.now result }
{
    if rest == b" derivation 1".as_slice() {
        Some(Line::Head(Format::Format1))
    } else if rest == b" derivation 2".as_slice() {
        Some(Line::Head(Format::Format2))
    } else {
        None
    }
}

// A line that has one name behind its first word.
fn named(keyword: Keyword, rest: &[u8]) -> Option<Line>
    requires { is_named keyword ≡ true }
    ensures { Reads tail_text (IsOf keyword) rest.now result }
{
    let name = only_name(rest)?;
    match keyword {
        Keyword::Assign => Some(Line::Plain(BasicStep::Assign(name))),
        Keyword::Known => Some(Line::Plain(BasicStep::Known(name))),
        Keyword::Branch => Some(Line::Fork(name)),
        Keyword::Part => Some(Line::Part(name)),
        Keyword::Use => Some(Line::Use(name)),
        _ => None,
    }
}

// A pass or a take, behind its first word.
fn sent(keyword: Keyword, rest: &[u8]) -> Option<Line>
    requires { is_sent keyword ≡ true }
    ensures { Reads tail_text (IsOf keyword) rest.now result }
{
    let (sender, receiver, channel) = message(rest)?;
    match keyword {
        Keyword::Pass => Some(Line::Plain(BasicStep::Pass(sender, receiver, channel))),
        Keyword::Take => Some(Line::Plain(BasicStep::Take(sender, receiver, channel))),
        _ => None,
    }
}

// A fill, behind its first word.
fn filled(rest: &[u8]) -> Option<Line>
    ensures { Reads tail_text (IsOf keyword.Fill) rest.now result }
{
    let (sender, receiver, channel, number) = fill(rest)?;
    Some(Line::Plain(BasicStep::Fill(sender, receiver, channel, number)))
}

// A line of one word.
fn bare(keyword: Keyword, rest: &[u8]) -> Option<Line>
    requires { is_bare keyword ≡ true }
    ensures { Reads tail_text (IsOf keyword) rest.now result }
{
    if !rest.is_empty() {
        return None;
    }
    match keyword {
        Keyword::Else => Some(Line::Else),
        Keyword::Join => Some(Line::Join),
        Keyword::Close => Some(Line::Close),
        Keyword::End => Some(Line::End),
        Keyword::EndPart => Some(Line::EndPart),
        _ => None,
    }
}

// The first line of a rule, behind its first word, where no owners are named.
fn dropping(alloc: Global, keyword: Keyword, rest: &[u8]) -> Result<Option<Line>, NoMemory>
    requires { is_dropping keyword ≡ true }
    ensures { IfOk result (λ o. Reads tail_text (IsOf keyword) rest.now o) }
{
    let Some((name, drops)) = rule(alloc, rest)? else {
        return Ok(None);
    };
    match keyword {
        Keyword::While => Ok(Some(Line::Enter(Loop::While(name, drops)))),
        Keyword::Repeat => Ok(Some(Line::Enter(Loop::Repeat(name, drops)))),
        Keyword::Gather => Ok(Some(Line::Enter(Loop::Gather(name, drops)))),
        Keyword::Pick => Ok(Some(Line::Enter(Loop::Pick(name, drops)))),
        _ => Ok(None),
    }
}

// The first line of a `for`, behind its first word.
fn owned(alloc: Global, rest: &[u8]) -> Result<Option<Line>, NoMemory>
    ensures { IfOk result (λ o. Reads tail_text (IsOf keyword.For) rest.now o) }
{
    let Some((set, owners, drops)) = for_rule(alloc, rest)? else {
        return Ok(None);
    };
    Ok(Some(Line::Enter(Loop::For(set, owners, drops))))
}

// The line that begins with the keyword and goes on so.
fn line_behind(alloc: Global, keyword: Keyword, rest: &[u8]) -> Result<Option<Line>, NoMemory>
    ensures { IfOk result (λ o. Reads tail_text (IsOf keyword) rest.now o) }
{
    match keyword {
        Keyword::Brisk => Ok(head(rest)),
        Keyword::Assign | Keyword::Known | Keyword::Branch | Keyword::Part | Keyword::Use => {
            Ok(named(keyword, rest))
        }
        Keyword::Pass | Keyword::Take => Ok(sent(keyword, rest)),
        Keyword::Fill => Ok(filled(rest)),
        Keyword::While | Keyword::Repeat | Keyword::Gather | Keyword::Pick => {
            dropping(alloc, keyword, rest)
        }
        Keyword::For => owned(alloc, rest),
        Keyword::Else | Keyword::Join | Keyword::Close | Keyword::End | Keyword::EndPart => {
            Ok(bare(keyword, rest))
        }
    }
}

/// The line with these bytes, which have no byte 10 at their end. Names are names of the language, and the number of a
/// box is from 1 to 1,000,000, with no leading zero.
pub fn read_line(alloc: Global, bytes: &[u8]) -> Result<Option<Line>, NoMemory>
    ensures { IfOk result (λ o. Reads line_text IsLegal bytes.now o) }
{
    let (word, rest) = cut(bytes, b' ');
    let Some(keyword) = keyword_in(word) else {
        return Ok(None);
    };
    line_behind(alloc, keyword, rest)
}
