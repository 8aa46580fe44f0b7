//! What a state begins with: the threads and the facts of a program's roles.
ghost use Rattle.std.specs.Prelude.{◌≡◌, ◌∷◌, [], map, IfOk, OnOk};
ghost use Rattle.brisk_syntax.specs.Texts.{text_of};
ghost use Rattle.brisk_state.specs.Symbolic.{all_first_facts, first_facts as first_facts_of, first_thread as thread_of};

use crate::thread::{Mode, Thread};
use brisk_facts::Facts;
use brisk_syntax::{Decl, Decls, Role, Roles, code_from};
use brisk_values::{Name, NoMemory};
use std::alloc::Global;

/// The threads with which the roles begin, in their order.
pub(crate) fn first_threads(alloc: Global, roles: &Roles) -> Result<Vec<Thread>, NoMemory>
    ensures { IfOk result (λ v. v.items ≡ map thread_of roles.now) }
{
    let mut threads = Vec::new(alloc);
    for role in &roles.items {
        threads.push(first_thread(alloc, role)?)?;
    }
    Ok(threads)
}

fn first_thread(alloc: Global, role: &Role) -> Result<Thread, NoMemory>
    ensures { IfOk result (λ t. t ≡ thread_of (text_of role.now)) }
{
    Ok(Thread {
        name: role.name,
        mode: if role.many { Mode::Each } else { Mode::One },
        code: code_from(alloc, &role.code)?,
    })
}

/// What is known at first: the value with which each variable is declared.
pub(crate) fn first_facts(alloc: Global, roles: &Roles) -> Result<Facts, NoMemory>
    ensures { IfOk result (λ f. f ≡ all_first_facts roles.now) }
{
    let mut facts = Facts::new(alloc);
    let mut ahead = roles.items.as_slice();
    while let Some((role, before)) = ahead.split_last() {
        add_role(&mut facts, role)?;
        ahead = before;
    }
    Ok(facts)
}

fn add_role(facts: &mut Facts, role: &Role) -> Result<(), NoMemory>
    ensures { OnOk result (facts.new ≡ first_facts_of role.now.name role.now.decls facts.old) }
{
    add_declared(facts, role.name, &role.decls)
}

// Adds what the declarations of a role tell. Of one variable the first of them holds.
fn add_declared(facts: &mut Facts, at: Name, decls: &Decls) -> Result<(), NoMemory>
    ensures { OnOk result (facts.new ≡ first_facts_of at decls.now facts.old) }
{
    let mut ahead = decls.items.as_slice();
    while let Some((decl, before)) = ahead.split_last() {
        add_first(facts, at, decl)?;
        ahead = before;
    }
    Ok(())
}

// Adds what one declaration tells.
fn add_first(facts: &mut Facts, at: Name, decl: &Decl) -> Result<(), NoMemory>
    ensures { OnOk result (facts.new ≡ first_facts_of at (decl.now ∷ []) facts.old) }
{
    match decl {
        Decl::Var(x, _, constant) => facts.add(at, *x, constant.value()),
        Decl::Input(_, _) => Ok(()),
    }
}
