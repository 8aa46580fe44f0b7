//! Programs.
ghost use Rattle.std.specs.Prelude.{◌≡◌, ◌+◌, ◌<◌, ◌^◌, [], None, map, sum_by, IfErr, IfOk, OnOk};
ghost use Rattle.brisk_seq.specs.Tokens.{items_tokens, seq_tokens};
ghost use Rattle.brisk_syntax.specs.Tokens.{program_tokens, role_tokens};
ghost use Rattle.brisk_types.specs.Declarations.{failures};
ghost use Rattle.brisk_types.specs.Failures.{IsBelow, IsChecked, note_all};
ghost use Rattle.brisk_types.specs.Names.{global_meaning, named_meanings};
ghost use Rattle.brisk_types.specs.Sequences as spec;

use crate::declarations::{channels, enumerations, roles};
use crate::fault::{First, TypeFault};
use crate::globals::globals;
use crate::names::Globals;
use crate::places::{global_names, places, roles_tokens};
use crate::processes::outlines;
use crate::sequences::body;
use brisk_seq::{Body, SeqProgram};
use brisk_syntax::{Channels, Program, Roles};
use brisk_values::NoMemory;
use std::alloc::Global;

// Notes what is wrong with the program.
fn noted(alloc: Global, program: &Program) -> Result<First, NoMemory>
    requires { program_tokens program.now < 2 ^ 32 }
    ensures { IfOk result (λ first. first.failure ≡ note_all None (failures program.now)) }
{
    let mut first = First { failure: None };
    let names = global_names(alloc, &program.enums, &program.channels, &program.roles)?;
    let places = places(alloc, &names, &mut first)?;
    let globals = globals(
        alloc,
        &program.enums,
        &program.channels,
        &program.roles,
        places,
    )?;
    let at = enumerations(alloc, &program.enums, 0, &mut first)?;
    let at = channels(&globals, &program.channels, at, &mut first);
    roles(alloc, &globals, &program.roles, at, &mut first)?;
    Ok(first)
}

/// Whether the program is well typed, and otherwise the first token of its spelling at which a rule fails.
pub fn check(alloc: Global, program: &Program) -> Result<(), TypeFault>
    requires { program_tokens program.now < 2 ^ 32 }
    ensures exact { IsChecked (failures program.now) result }
    ensures below { IfErr result (IsBelow (program_tokens program.now)) }
{
    match noted(alloc, program) {
        Ok(first) => first.answer(),
        Err(_) => Err(TypeFault::NoMemory),
    }
}

// Notes what is wrong with the roles of a sequential program, of which the first begins at the token, and behind them
// with its items.
fn roles_and_body(
    alloc: Global,
    globals: &Globals<'_>,
    roles: &Roles,
    items: &Body,
    at: u32,
    first: &mut First,
) -> Result<(), NoMemory>
    requires { at + sum_by role_tokens roles.now + 1 + items_tokens items.now < 2 ^ 32 }
    ensures { OnOk result (first.new.failure ≡ note_all (note_all first.old.failure (spec.outlines (global_meaning globals.now) at roles.now)) (spec.items (named_meanings globals.now (map (spec.behind_role (global_meaning globals.now)) roles.now)) [] (at + sum_by role_tokens roles.now + 1) items.now)) }
{
    let names = outlines(alloc, globals, roles, at, first)?;
    let begin = at + roles_tokens(roles) + 1;
    body(alloc, globals, &names, items, begin, first)
}

// Notes what is wrong with the sequential program.
fn seq_noted(alloc: Global, program: &SeqProgram) -> Result<First, NoMemory>
    requires { seq_tokens program.now < 2 ^ 32 }
    ensures { IfOk result (λ first. first.failure ≡ note_all None (spec.seq_failures program.now)) }
{
    let mut first = First { failure: None };
    let none = Channels {
        items: Vec::new(alloc),
    };
    let names = global_names(alloc, &program.enums, &none, &program.roles)?;
    let places = places(alloc, &names, &mut first)?;
    let globals = globals(alloc, &program.enums, &none, &program.roles, places)?;
    let at = enumerations(alloc, &program.enums, 0, &mut first)?;
    roles_and_body(
        alloc,
        &globals,
        &program.roles,
        &program.body,
        at,
        &mut first,
    )?;
    Ok(first)
}

/// Whether the sequential program is well typed, and otherwise the first token of its spelling at which a rule fails.
pub fn check_seq(alloc: Global, program: &SeqProgram) -> Result<(), TypeFault>
    requires { seq_tokens program.now < 2 ^ 32 }
    ensures exact { IsChecked (spec.seq_failures program.now) result }
    ensures below { IfErr result (IsBelow (seq_tokens program.now)) }
{
    match seq_noted(alloc, program) {
        Ok(first) => first.answer(),
        Err(_) => Err(TypeFault::NoMemory),
    }
}
