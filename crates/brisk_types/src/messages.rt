//! Channels, and the lists of messages.
ghost use Rattle.std.specs.Prelude.{◌≡◌, ◌+◌, ◌*◌, ◌<◌, ◌^◌, [], length, option_map};
ghost use Rattle.brisk_syntax.specs.Tokens.{list_tokens, name_tokens};
ghost use Rattle.brisk_types.specs.Failures.{note_all};
ghost use Rattle.brisk_types.specs.Names.{meaning_of};
ghost use Rattle.brisk_types.specs.Statements as spec;

use crate::expressions::expression;
use crate::fault::{First, Rule};
use crate::names::{Names, differ, is_among};
use brisk_syntax::{Exprs, Kinds};
use brisk_values::{Kind, Name};

/// What is wrong with a channel that carries so many values.
pub fn channel_rule(kinds: Option<&Kinds>, values: usize) -> Option<Rule>
    ensures { result ≡ spec.channel_rule (option_map (λ k. k.now) kinds.entry) values }
{
    match kinds {
        None => Some(Rule::Unknown),
        Some(kinds) => {
            if values == kinds.items.len() {
                None
            } else {
                Some(Rule::WrongCount)
            }
        }
    }
}

/// The kinds that a channel wants, where it is known.
pub fn wanted_kinds<'a>(kinds: Option<&'a Kinds>) -> &'a [Kind]
    ensures { result.now ≡ spec.wanted_kinds (option_map (λ k. k.now) kinds.entry) }
{
    match kinds {
        None => &[],
        Some(kinds) => &kinds.items,
    }
}

fn first_kind(kinds: &[Kind]) -> Option<Kind>
    ensures { result ≡ spec.first_kind kinds.now }
{
    match kinds {
        [] => None,
        [first, ..] => Some(*first),
    }
}

fn other_kinds(kinds: &[Kind]) -> &[Kind]
    ensures { result.now ≡ spec.other_kinds kinds.now }
{
    match kinds {
        [] => kinds,
        [_, others @ ..] => others,
    }
}

/// Notes what is wrong with the values of a message, of which the first is at the token.
#[tactic(auto, using(crate::proofs::Lists::spaced_room))]
pub fn values(names: &Names<'_>, exprs: &Exprs, kinds: &[Kind], at: u32, first: &mut First)
    requires { at + list_tokens exprs.now + 1 < 2 ^ 32 }
    ensures { first.new.failure ≡ note_all first.old.failure (spec.values (meaning_of names.now) at exprs.now kinds.now) }
{
    let mut at = at;
    let mut kinds = kinds;
    for e in &exprs.items {
        at = expression(names, first_kind(kinds), e, at, first) + 1;
        kinds = other_kinds(kinds);
    }
}

/// Notes what is wrong with the variables of a message, of which the first is at the token.
#[tactic(auto, using(crate::proofs::Lists::names_is))]
pub fn variables(names: &Names<'_>, vars: &[Name], kinds: &[Kind], at: u32, first: &mut First)
    requires { at + name_tokens vars.now + 1 < 2 ^ 32 }
    ensures { first.new.failure ≡ note_all first.old.failure (spec.variables (meaning_of names.now) [] at vars.now kinds.now) }
{
    let mut at = at;
    let mut kinds = kinds;
    for (k, x) in vars.iter().enumerate() {
        let kind = names.kind_of_variable(*x);
        first.note_if(kind.is_none(), Rule::Unknown, at);
        first.note_if(is_among(&vars[..k], x), Rule::Twice, at);
        first.note_if(differ(&first_kind(kinds), &kind), Rule::WrongKind, at);
        at += 2;
        kinds = other_kinds(kinds);
    }
}
