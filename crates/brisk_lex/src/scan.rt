//! Runs of characters at the front of a text.
ghost use Rattle.std.specs.Prelude.{◌≡◌, ◌++◌, ◌∷◌, [], drop, MatchOption};
ghost use Rattle.std.specs.Str.{chars};
ghost use Rattle.std.specs.Char.{encode_utf8};
ghost use Rattle.std.specs.List.{prefix_len};
ghost use Rattle.unicode_ident.specs.Ident.{is_xid_continue};
ghost use Rattle.brisk_lex.specs.Tokens.{not_newline};

use unicode_ident::is_xid_continue;

/// The first character, and the text after it.
pub fn take_char(text: &str) -> Option<(char, &str)>
    ensures { MatchOption result (chars text.now ≡ []) (λ x. (chars text.now ≡ x.0 ∷ chars x.1.now) × (text.now ≡ encode_utf8 x.0 ++ x.1.now)) }
{
    let mut chars = text.chars();
    let c = chars.next()?;
    Some((c, chars.as_str()))
}

/// The text after the characters that go on with a name.
pub fn past_name(mut text: &str) -> &str
    ensures { chars result.now ≡ drop (prefix_len is_xid_continue (chars text.entry.now)) (chars text.entry.now) }
{
    while let Some((c, after)) = take_char(text) {
        if !is_xid_continue(c) {
            break;
        }
        text = after;
    }
    text
}

/// The text from the next byte 10 on.
pub fn past_line(mut text: &str) -> &str
    ensures { chars result.now ≡ drop (prefix_len not_newline (chars text.entry.now)) (chars text.entry.now) }
{
    while let Some((c, after)) = take_char(text) {
        if c == '\n' {
            break;
        }
        text = after;
    }
    text
}
