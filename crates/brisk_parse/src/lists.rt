//! Lists: items behind commas, and items one after another.
ghost use Rattle.std.specs.Prelude.{◌≡◌, map};
ghost use Rattle.std.specs.Option.{option_copied};
ghost use Rattle.brisk_parse.specs.Outcomes.{Reads};
ghost use Rattle.brisk_parse.specs.Reading as spec;

use crate::fault::Stop;
use crate::reader::Reader;
use brisk_lex::{Mark, Token};

/// What a list is made of: its first token tells whether another follows.
pub trait Item: Sized + Drop {
    ghost use Rattle.std.specs.Prelude.{Option, Bool};
    ghost use Rattle.brisk_lex.specs.declared.token.Token.{Token};
    ghost use Rattle.brisk_parse.specs.Outcomes.{Parser};

    ghost View: { Type 0 };

    ghost seen: { Self → View };

    ghost is_first: { Option Token → Bool };

    ghost one: { Parser View };

    /// Whether an item begins with the token.
    fn begins(token: Option<&Token>) -> bool
        ensures { result ≡ is_first (option_copied token.entry) };

    fn read(reader: &mut Reader<'_>) -> Result<Self, Stop>
        ensures { Reads seen result reader.new (one reader.old) };
}

/// One item, and at most `more` behind commas.
#[tactic(auto, unfolding(crate::specs::Reading::separated))]
pub fn separated<T: Item>(reader: &mut Reader<'_>, more: usize) -> Result<Vec<T>, Stop>
    ensures { Reads (λ v. map T.seen v.items) result reader.new (spec.separated T.is_first T.one more reader.old) }
{
    let mut items = Vec::new(reader.alloc());
    items.push(T::read(reader)?)?;
    for _turn in 0..more {
        if !reader.sees_mark(Mark::Comma) {
            return Ok(items);
        }
        reader.advance();
        items.push(T::read(reader)?)?;
    }
    if !reader.sees_mark(Mark::Comma) {
        return Ok(items);
    }
    reader.advance();
    if T::begins(reader.peek()) {
        return Err(Stop::TooMany(reader.left()));
    }
    Err(Stop::Syntax(reader.left()))
}

/// Items behind commas, or none: at most `more` after the first.
#[tactic(auto, unfolding(crate::specs::Reading::listed))]
pub fn listed<T: Item>(reader: &mut Reader<'_>, more: usize) -> Result<Vec<T>, Stop>
    ensures { Reads (λ v. map T.seen v.items) result reader.new (spec.listed T.is_first T.one more reader.old) }
{
    if T::begins(reader.peek()) {
        separated(reader, more)
    } else {
        Ok(Vec::new(reader.alloc()))
    }
}

/// Items as long as one begins, at most so many.
pub fn list_of<T: Item>(reader: &mut Reader<'_>, most: usize) -> Result<Vec<T>, Stop>
    ensures { Reads (λ v. map T.seen v.items) result reader.new (spec.list_of T.is_first T.one most reader.old) }
{
    let mut items = Vec::new(reader.alloc());
    for _turn in 0..most {
        if !T::begins(reader.peek()) {
            return Ok(items);
        }
        items.push(T::read(reader)?)?;
    }
    if T::begins(reader.peek()) {
        return Err(Stop::TooMany(reader.left()));
    }
    Ok(items)
}
