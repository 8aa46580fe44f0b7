//! What stands at the front of a text.
ghost use Rattle.std.specs.Prelude.{true, ◌<◌, ◌≡◌, ◌∷◌, ◌++◌, ◌-◌, ◌^◌, min, length, drop};
ghost use Rattle.std.specs.Str.{chars};
ghost use Rattle.std.specs.Char.{is_ascii_digit, encode_utf8};
ghost use Rattle.std.specs.List.{prefix_len};
ghost use Rattle.brisk_lex.specs.Tokens as spec;
ghost use Rattle.brisk_lex.specs.Tokens.{number};
ghost use Rattle.brisk_lex.specs.Seen.{Cuts};

use crate::fault::Wrong;
use crate::marks::{double_mark, single_mark};
use crate::scan::{past_line, past_name, take_char};
use crate::token::Token;
use crate::words::word_of;
use brisk_values::Name;
use unicode_ident::is_xid_start;

const GREATEST_NUMBER: u64 = 9_223_372_036_854_775_808;

/// What is cut off, and the text after it.
#[derive(Clone, Copy)]
pub enum Cut<'a> {
    /// A space or a comment.
    Blank(&'a str),
    Takes(Token, &'a str),
    Fails(Wrong),
}

fn is_space(c: char) -> bool
    ensures { result ≡ spec.is_space c }
{
    c == ' ' || c == '\t' || c == '\n' || c == '\r'
}

pub fn starts_name(c: char) -> bool
    ensures { result ≡ spec.starts_name c }
{
    is_xid_start(c) || c == '_'
}

/// The first character, and `'\0'` where there is none.
fn first(text: &str) -> char
    ensures { result ≡ spec.first (chars text.now) }
{
    match take_char(text) {
        Some((c, _)) => c,
        None => '\0',
    }
}

/// The text after its first character, if there is one.
fn after_one(text: &str) -> &str
    ensures { chars result.now ≡ drop 1 (chars text.now) }
{
    match take_char(text) {
        Some((_, after)) => after,
        None => text,
    }
}

#[tactic(auto, unfolding(crate::specs::Tokens::mark_cut))]
fn mark_cut(c: char, after: &str) -> Cut<'_>
    ensures { Cuts (spec.mark_cut c (chars after.now)) (chars after.now) result }
{
    if let Some(mark) = double_mark(c, first(after)) {
        Cut::Takes(Token::Mark(mark), after_one(after))
    } else if let Some(mark) = single_mark(c) {
        Cut::Takes(Token::Mark(mark), after)
    } else {
        Cut::Fails(Wrong::BadChar)
    }
}

/// The token of a name's text.
#[tactic(auto, unfolding(crate::specs::Tokens::name_token))]
fn name_token(bytes: &[u8]) -> Result<Token, Wrong>
    requires { 0 < length bytes.now }
    ensures { result ≡ spec.name_token bytes.now }
{
    if let Some(word) = word_of(bytes) {
        return Ok(Token::Word(word));
    }
    match Name::new(bytes) {
        Some(name) => Ok(Token::Name(name)),
        None => Err(Wrong::NameTooLong),
    }
}

#[tactic(auto, unfolding(crate::specs::Tokens::name_cut))]
fn name_cut<'a>(c: char, start: &'a str, after: &'a str) -> Cut<'a>
    requires whole { chars start.now ≡ c ∷ chars after.now }
    requires bytes { start.now ≡ encode_utf8 c ++ after.now }
    ensures { Cuts (spec.name_cut c (chars after.now)) (chars after.now) result }
{
    let end = past_name(after);
    let bytes = &start.as_bytes()[..start.len() - end.len()];
    match name_token(bytes) {
        Ok(token) => Cut::Takes(token, end),
        Err(wrong) => Cut::Fails(wrong),
    }
}

/// The number of the digits at the front, at most `u64::MAX`, and the text after them.
#[tactic(auto, using(crate::proofs::Chars::number_step))]
fn digits(first: u64, text: &str) -> (u64, &str)
    requires { first < 10 }
    ensures value { result.0 ≡ min (number first (chars text.now)) (2 ^ 64 - 1) }
    ensures rest { chars result.1.now ≡ drop (prefix_len is_ascii_digit (chars text.now)) (chars text.now) }
{
    let mut value = first;
    let mut rest = text;
    while let Some((c, after)) = take_char(rest) {
        if !c.is_ascii_digit() {
            return (value, rest);
        }
        value = value.saturating_mul(10).saturating_add(c as u64 - 48);
        rest = after;
    }
    (value, rest)
}

#[tactic(auto, unfolding(crate::specs::Tokens::number_cut))]
fn number_cut(c: char, after: &str) -> Cut<'_>
    requires { is_ascii_digit c ≡ true }
    ensures { Cuts (spec.number_cut c (chars after.now)) (chars after.now) result }
{
    let (value, rest) = digits(c as u64 - 48, after);
    if value > GREATEST_NUMBER {
        Cut::Fails(Wrong::NumberTooLarge)
    } else {
        Cut::Takes(Token::Num(value), rest)
    }
}

/// What is cut off where `start` is `c` and then `after`.
#[tactic(auto, unfolding(crate::specs::Tokens::cut))]
pub fn cut_at<'a>(c: char, start: &'a str, after: &'a str) -> Cut<'a>
    requires whole { chars start.now ≡ c ∷ chars after.now }
    requires bytes { start.now ≡ encode_utf8 c ++ after.now }
    ensures { Cuts (spec.cut c (chars after.now)) (chars after.now) result }
{
    if is_space(c) {
        Cut::Blank(after)
    } else if c == '/' && first(after) == '/' {
        Cut::Blank(past_line(after))
    } else if c.is_ascii_digit() {
        number_cut(c, after)
    } else if starts_name(c) {
        name_cut(c, start, after)
    } else {
        mark_cut(c, after)
    }
}
