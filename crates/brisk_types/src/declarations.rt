//! Enumerations, channels, declarations and roles.
ghost use Rattle.std.specs.Prelude.{◌≡◌, ◌+◌, ◌<◌, ◌^◌, [], length, sum_by, IfOk, OnOk};
ghost use Rattle.brisk_syntax.specs.Texts.{text_of};
ghost use Rattle.brisk_syntax.specs.Tokens as tokens;
ghost use Rattle.brisk_types.specs.Declarations as spec;
ghost use Rattle.brisk_types.specs.Failures.{note_all};
ghost use Rattle.brisk_types.specs.Names.{global_meaning, known_enum, meaning_of};

use crate::expressions::tag;
use crate::fault::{First, Rule};
use crate::index::{Index, Key};
use crate::names::{Globals, Names, differ};
use crate::places::{channel_tokens, decl_tokens, decls_tokens, enum_tokens, heading_tokens};
use crate::statements::binder;
use brisk_syntax::{Channels, Const, Decl, Enums, Kinds, Names as List, Role, Roles};
use brisk_values::{Kind, Name, NoMemory};
use std::alloc::Global;

// Tags, of which the first is at the token.
#[tactic(auto, using(crate::proofs::Lists::names_is))]
fn tags(alloc: Global, names: &List, at: u32, first: &mut First) -> Result<(), NoMemory>
    requires { at + tokens.name_tokens names.now + 1 < 2 ^ 32 }
    ensures { OnOk result (first.new.failure ≡ note_all first.old.failure (spec.tags [] at names.now)) }
{
    let mut at = at;
    let mut seen = Index::new(alloc);
    for name in &names.items {
        let key = Key { name: *name };
        first.note_if(seen.get(&key).is_some(), Rule::Twice, at);
        seen.add(&key, ())?;
        at += 2;
    }
    Ok(())
}

/// Notes what is wrong with enumerations that begin at the token. Answers the token after them.
pub fn enumerations(
    alloc: Global,
    enums: &Enums,
    at: u32,
    first: &mut First,
) -> Result<u32, NoMemory>
    requires { at + sum_by tokens.enum_tokens enums.now < 2 ^ 32 }
    ensures next { IfOk result (λ next. next ≡ at + sum_by tokens.enum_tokens enums.now) }
    ensures noted { OnOk result (first.new.failure ≡ note_all first.old.failure (spec.enumerations at enums.now)) }
{
    let mut at = at;
    for e in &enums.items {
        tags(alloc, &e.tags, at + 3, first)?;
        at += enum_tokens(e);
    }
    Ok(at)
}

fn kind_at(globals: &Globals<'_>, kind: &Kind, at: u32, first: &mut First)
    ensures { first.new.failure ≡ note_all first.old.failure (spec.kind_at (known_enum globals.now) at kind.now) }
{
    if let Kind::Enum(name) = kind {
        first.note_if(!globals.is_enum(*name), Rule::Unknown, at);
    }
}

// Kinds, of which the first is at the token.
#[tactic(auto, using(crate::proofs::Lists::names_is))]
fn kinds(globals: &Globals<'_>, kinds: &Kinds, at: u32, first: &mut First)
    requires { at + tokens.separated (λ k. 1) kinds.now + 1 < 2 ^ 32 }
    ensures { first.new.failure ≡ note_all first.old.failure (spec.kinds (known_enum globals.now) at kinds.now) }
{
    let mut at = at;
    for kind in &kinds.items {
        kind_at(globals, kind, at, first);
        at += 2;
    }
}

/// Notes what is wrong with channels that begin at the token. Answers the token after them.
pub fn channels(globals: &Globals<'_>, channels: &Channels, at: u32, first: &mut First) -> u32
    requires { at + sum_by tokens.channel_tokens channels.now < 2 ^ 32 }
    ensures next { result ≡ at + sum_by tokens.channel_tokens channels.now }
    ensures noted { first.new.failure ≡ note_all first.old.failure (spec.channels (known_enum globals.now) at channels.now) }
{
    let mut at = at;
    for channel in &channels.items {
        kinds(globals, &channel.kinds, at + 3, first);
        at += channel_tokens(channel);
    }
    at
}

fn constant_kind(names: &Names<'_>, c: &Const) -> Option<Kind>
    ensures { result ≡ spec.constant_kind (meaning_of names.now) c.now }
{
    match c {
        Const::Num(_, _) => Some(Kind::Int),
        Const::Bool(_) => Some(Kind::Bool),
        Const::Tag(of, name) => names.tag_kind(*of, *name),
    }
}

fn declaration(names: &Names<'_>, decl: &Decl, at: u32, first: &mut First)
    requires { at + tokens.decl_tokens decl.now < 2 ^ 32 }
    ensures { first.new.failure ≡ note_all first.old.failure (spec.declaration (meaning_of names.now) at decl.now) }
{
    match decl {
        Decl::Var(name, kind, c) => {
            binder(names, &[], *name, at + 1, first);
            kind_at(names.globals, kind, at + 3, first);
            let wrong = differ(&Some(*kind), &constant_kind(names, c));
            first.note_if(wrong, Rule::WrongKind, at + 5);
            if let Const::Tag(of, name) = c {
                tag(names, *of, *name, at + 5, first);
            }
        }
        Decl::Input(name, kind) => {
            binder(names, &[], *name, at + 1, first);
            kind_at(names.globals, kind, at + 3, first);
        }
    }
}

/// Notes what is wrong with the declarations of a role that begins at the token. Answers what names mean behind them.
pub fn declared<'a>(
    alloc: Global,
    globals: &'a Globals<'a>,
    role: &Role,
    at: u32,
    first: &mut First,
) -> Result<Names<'a>, NoMemory>
    requires { at + tokens.role_tokens (text_of role.now) < 2 ^ 32 }
    ensures names { IfOk result (λ names. meaning_of names ≡ spec.behind_all (global_meaning globals.now role.now.name) role.now.decls) }
    ensures noted { OnOk result (first.new.failure ≡ note_all first.old.failure (spec.declarations (global_meaning globals.now role.now.name) (at + spec.heading_tokens (text_of role.now)) role.now.decls)) }
{
    let mut names = Names::new(alloc, globals, role.name);
    let mut at = at + heading_tokens(role);
    for decl in &role.decls.items {
        declaration(&names, decl, at, first);
        names.add(decl)?;
        at += decl_tokens(decl);
    }
    Ok(names)
}

fn role(
    alloc: Global,
    globals: &Globals<'_>,
    role: &Role,
    at: u32,
    first: &mut First,
) -> Result<u32, NoMemory>
    requires { at + tokens.role_tokens (text_of role.now) < 2 ^ 32 }
    ensures next { IfOk result (λ next. next ≡ at + tokens.role_tokens (text_of role.now)) }
    ensures noted { OnOk result (first.new.failure ≡ note_all first.old.failure (spec.role (global_meaning globals.now role.now.name) at (text_of role.now))) }
{
    let names = declared(alloc, globals, role, at, first)?;
    let at = at + heading_tokens(role) + decls_tokens(&role.decls);
    let mut binders = Vec::new(alloc);
    let end = names.code(&mut binders, &role.code, at, first)?;
    Ok(end + 1)
}

/// Notes what is wrong with roles that begin at the token.
pub fn roles(
    alloc: Global,
    globals: &Globals<'_>,
    roles: &Roles,
    at: u32,
    first: &mut First,
) -> Result<(), NoMemory>
    requires { at + sum_by tokens.role_tokens roles.now < 2 ^ 32 }
    ensures { OnOk result (first.new.failure ≡ note_all first.old.failure (spec.roles (global_meaning globals.now) at roles.now)) }
{
    let mut at = at;
    for each in &roles.items {
        at = role(alloc, globals, each, at, first)?;
    }
    Ok(())
}
