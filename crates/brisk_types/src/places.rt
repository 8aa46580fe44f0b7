//! Where the names are declared that are known everywhere.
ghost use Rattle.std.specs.Prelude.{◌≡◌, ◌+◌, ◌<◌, ◌^◌, ◌&&◌, ℕ, [], sum_by, if◌then◌else◌, IfOk, OnOk};
ghost use Rattle.brisk_syntax.specs.Texts.{text_of};
ghost use Rattle.brisk_syntax.specs.Tokens as tokens;
ghost use Rattle.brisk_values.specs.Names.{Name as Text};
ghost use Rattle.brisk_types.specs.Declarations as spec;
ghost use Rattle.brisk_types.specs.Failures.{note_all};
ghost use Rattle.brisk_types.specs.Indexes.{found, key, same_key};

use crate::count::{code_tokens, names_tokens};
use crate::fault::{First, Rule};
use crate::index::{Index, Key};
use brisk_syntax::{Channel, Channels, Const, Decl, Decls, EnumDecl, Enums, Role, Roles};
use brisk_values::{Name, NoMemory};
use std::alloc::Global;

/// A name, and the token at which it is declared.
#[derive(Clone, Copy)]
pub struct Placed {
    pub name: Name,
    pub at: u32,
}

pub fn enum_tokens(e: &EnumDecl) -> u32
    requires { tokens.enum_tokens e.now < 2 ^ 32 }
    ensures { result ≡ tokens.enum_tokens e.now }
{
    names_tokens(&e.tags) + 4
}

#[tactic(auto, using(crate::proofs::Lists::names_is))]
pub fn channel_tokens(channel: &Channel) -> u32
    requires { tokens.channel_tokens channel.now < 2 ^ 32 }
    ensures { result ≡ tokens.channel_tokens channel.now }
{
    let kinds = (2 * channel.kinds.items.len() as u32).saturating_sub(1);
    kinds + if channel.loose { 6 } else { 5 }
}

fn constant_tokens(c: &Const) -> u32
    ensures { result ≡ tokens.constant_tokens c.now }
{
    match c {
        Const::Num(negative, _) => { if *negative { 2 } else { 1 } }
        Const::Bool(_) => 1,
        Const::Tag(_, _) => 3,
    }
}

pub fn decl_tokens(decl: &Decl) -> u32
    ensures { result ≡ tokens.decl_tokens decl.now }
{
    match decl {
        Decl::Var(_, _, c) => constant_tokens(c) + 6,
        Decl::Input(_, _) => 5,
    }
}

pub fn decls_tokens(decls: &Decls) -> u32
    requires { sum_by tokens.decl_tokens decls.now < 2 ^ 32 }
    ensures { result ≡ sum_by tokens.decl_tokens decls.now }
{
    let mut tokens = 0;
    for decl in &decls.items {
        tokens += decl_tokens(decl);
    }
    tokens
}

/// The tokens of a role before its declarations.
pub fn heading_tokens(role: &Role) -> u32
    ensures { result ≡ spec.heading_tokens (text_of role.now) }
{
    if role.many && role.nonempty { 4 } else { 3 }
}

pub fn role_tokens(role: &Role) -> u32
    requires { tokens.role_tokens (text_of role.now) < 2 ^ 32 }
    ensures { result ≡ tokens.role_tokens (text_of role.now) }
{
    heading_tokens(role) + decls_tokens(&role.decls) + code_tokens(&role.code) + 1
}

pub fn roles_tokens(roles: &Roles) -> u32
    requires { sum_by tokens.role_tokens roles.now < 2 ^ 32 }
    ensures { result ≡ sum_by tokens.role_tokens roles.now }
{
    let mut tokens = 0;
    for role in &roles.items {
        tokens += role_tokens(role);
    }
    tokens
}

/// The names of a program that are known everywhere, in order.
pub fn global_names(
    alloc: Global,
    enums: &Enums,
    channels: &Channels,
    roles: &Roles,
) -> Result<Vec<Placed>, NoMemory>
    requires { tokens.program_tokens (spec.program_of enums.now channels.now roles.now) < 2 ^ 32 }
    ensures { IfOk result (λ v. v.items ≡ spec.placed (spec.program_of enums.now channels.now roles.now)) }
{
    let mut names = Vec::new(alloc);
    let mut at = 0;
    for e in &enums.items {
        names.push(Placed {
            name: e.name,
            at: at + 1,
        })?;
        at += enum_tokens(e);
    }
    for channel in &channels.items {
        names.push(Placed {
            name: channel.name,
            at: at + 1,
        })?;
        at += channel_tokens(channel);
    }
    for role in &roles.items {
        names.push(Placed {
            name: role.name,
            at: at + 1,
        })?;
        at += role_tokens(role);
    }
    Ok(names)
}

/// The tokens at which the names are first declared. Notes each name that stands before.
pub fn places(
    alloc: Global,
    names: &[Placed],
    first: &mut First,
) -> Result<Index<Key, u32>, NoMemory>
    ensures index { IfOk result (λ index. (n : Text) → found same_key index (key n) ≡ spec.place_of names.now n) }
    ensures noted { OnOk result (first.new.failure ≡ note_all first.old.failure (spec.apart [] names.now)) }
{
    let mut index = Index::new(alloc);
    for placed in names {
        let key = Key { name: placed.name };
        first.note_if(index.get(&key).is_some(), Rule::Twice, placed.at);
        index.add(&key, placed.at)?;
    }
    Ok(index)
}
