//! Names alone.
ghost use Rattle.std.specs.Prelude.{◌≡◌, MatchOption};
ghost use Rattle.std.specs.Str.{chars};
ghost use Rattle.std.specs.List.{list_all};
ghost use Rattle.unicode_ident.specs.Ident as ident;
ghost use Rattle.brisk_lex.specs.Spelled as spec;
ghost use Rattle.brisk_lex.specs.Spelled.{IsName};

use crate::cut::starts_name;
use crate::scan::take_char;
use crate::words::word_of;
use brisk_values::Name;
use std::str::from_utf8;
use unicode_ident::is_xid_continue;

fn all_go_on(text: &str) -> bool
    ensures { result ≡ list_all ident.is_xid_continue (chars text.now) }
{
    text.chars().all(|c| is_xid_continue(c))
}

/// Whether the text is a name or a reserved word.
fn is_identifier(text: &str) -> bool
    ensures { result ≡ spec.is_identifier (chars text.now) }
{
    match take_char(text) {
        Some((c, after)) => starts_name(c) && all_go_on(after),
        None => false,
    }
}

/// The name with these bytes, if they are a name of the language.
pub fn name_in(bytes: &[u8]) -> Option<Name>
    ensures { MatchOption result (IsName bytes.now → ⊥) (λ x. (x ≡ bytes.now) × IsName bytes.now) }
{
    let text = from_utf8(bytes).ok()?;
    if !is_identifier(text) || word_of(bytes).is_some() {
        return None;
    }
    Name::new(bytes)
}
