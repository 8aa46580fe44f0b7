//! The tokens of a whole text.
ghost use Rattle.std.specs.Prelude.{◌≡◌, ◌<◌, ◌≤◌, ◌^◌, length, MatchOption, IfErr, IfOk};
ghost use Rattle.std.specs.Str.{chars};
ghost use Rattle.std.specs.Str.Lossy.{utf8_error_len};
ghost use Rattle.brisk_lex.specs.Tokens as spec;
ghost use Rattle.brisk_lex.specs.Broken.{IsNotUtf8At};
ghost use Rattle.brisk_lex.specs.Seen.{Gives};

use crate::cut::{Cut, cut_at};
use crate::fault::LexFault;
use crate::scan::take_char;
use crate::token::Placed;
use std::alloc::Global;
use std::str::from_utf8;

/// The tokens of characters.
fn lexed(alloc: Global, text: &str) -> Result<Vec<Placed>, LexFault>
    requires { length text.now < 2 ^ 32 }
    ensures { Gives (λ v. v.items) result (spec.lexed (length text.now) 0 (chars text.now)) }
{
    let mut tokens = Vec::new(alloc);
    let mut rest = text;
    while let Some((c, after)) = take_char(rest) {
        let at = (text.len() - rest.len()) as u32;
        match cut_at(c, rest, after) {
            Cut::Blank(next) => rest = next,
            Cut::Takes(token, next) => {
                tokens.push(Placed { token, at })?;
                rest = next;
            }
            Cut::Fails(wrong) => return Err(wrong.at(at)),
        }
    }
    Ok(tokens)
}

/// How many of the bytes begin a character, where no whole one stands at the front.
fn begun(bytes: &[u8], error_len: Option<usize>) -> usize
    requires within { MatchOption error_len (Unit {0}) (λ k. k ≤ length bytes.now) }
    requires is { error_len ≡ utf8_error_len bytes.now }
    ensures value { result ≡ spec.begun bytes.now }
    ensures within { result ≤ length bytes.now }
{
    match bytes {
        [0xC2..=0xF4, ..] => error_len.unwrap_or(bytes.len()),
        _ => 0,
    }
}

/// The tokens of a text, each the longest that can be cut off at its byte.
///
/// A fault names the least byte at which reading fails: the first byte with which the bytes so far begin no
/// UTF-8 text, or the beginning of a character that begins no token, of a number above
/// 9,223,372,036,854,775,808, or of a name of more than 64 bytes. A text that ends inside a character fails at its
/// end.
#[tactic(auto, unfolding(crate::specs::Tokens::tokens))]
pub fn tokens(alloc: Global, text: &[u8]) -> Result<Vec<Placed>, LexFault>
    requires { length text.now ≤ 16777216 }
    ensures reads { Gives (λ v. v.items) result (spec.tokens text.now) }
    ensures broken { IfErr result (IsNotUtf8At text.now) }
    ensures few { IfOk result (λ v. length v.items ≤ length text.now) }
{
    let error = match from_utf8(text) {
        Ok(whole) => return lexed(alloc, whole),
        Err(error) => error,
    };
    let (front, rest) = text.split_at(error.valid_up_to());
    let Ok(front_text) = from_utf8(front) else {
        unreachable!()
    };
    let _tokens = lexed(alloc, front_text)?;
    let at = front.len() + begun(rest, error.error_len());
    Err(LexFault::NotUtf8(at as u32))
}
