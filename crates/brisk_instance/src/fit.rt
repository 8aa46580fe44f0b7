//! Whether an instance fits: each set has a size, each input of each process a value of its kind, and nothing else is
//! given.
ghost use Rattle.std.specs.Prelude.{◌≡◌, ℕ, ◌<◌, ◌↔◌, IsTrue, IfOk, IfErr, [], ◌∷◌, map, option_map};
ghost use Rattle.std.specs.List.{AllByRecursion, list_any};
ghost use Rattle.brisk_values.specs.Names.{member, same_name};
ghost use Rattle.brisk_syntax.specs.Declarations.{is_tag as is_tag_of};
ghost use Rattle.brisk_syntax.specs.Instance.{InputFits, IsOfKind, RoleFits, least};
ghost use Rattle.brisk_syntax.specs.Texts.{text_of};
ghost use Rattle.brisk_instance.specs.Given.{all_inputs, inputs_at, instance_with, place_of, set_names};
ghost use Rattle.brisk_instance.specs.Starting.{IsCause, IsReady};
ghost use Rattle.brisk_instance.specs.Walks.{has_input as has_input_in, inputs_of, role_inputs, instance_from, instance_given, is_whole, rest_after, same_input, size_name};

use crate::fault::StartFault;
use crate::start::{declared_value, given_values, members_of};
use crate::tokens::weight;
use brisk_syntax::{Decl, Decls, EnumDecl, Enums, Role, Roles};
use brisk_values::{Input, Inputs, Instance, Kind, Name, Pid, Sizes, Store, Value};
use std::alloc::Global;

/// The greatest weight of an instance that is started.
pub const MOST_WEIGHT: u64 = 2_000_000;

// The sizes behind that of a set, where they begin with it.
fn behind_set<'a>(sizes: &'a [(Name, u32)], set: &Name) -> Option<&'a [(Name, u32)]>
    ensures { option_map (λ r. map size_name r.now) result ≡ rest_after same_name (set.now ∷ []) (map size_name sizes.now) }
{
    match sizes.split_first() {
        Some((size, rest)) if *set == size.0 => Some(rest),
        _ => None,
    }
}

// Whether the sizes are those of the sets, in order.
fn are_sizes_given(roles: &Roles, sizes: &Sizes) -> bool
    ensures { result ≡ is_whole (rest_after same_name (set_names roles.now) (map size_name sizes.now)) }
{
    let mut rest = sizes.items.as_slice();
    for role in &roles.items {
        if role.many {
            match behind_set(rest, &role.name) {
                Some(behind) => rest = behind,
                None => return false,
            }
        }
    }
    rest.is_empty()
}

fn has_input(decls: &Decls) -> bool
    ensures { result ≡ has_input_in decls.now }
{
    decls
        .items
        .iter()
        .any(|decl| matches!(decl, Decl::Input(_, _)))
}

// The inputs behind one of a process, where they begin with it.
fn behind_input<'a>(inputs: &'a [Input], process: &Pid, variable: &Name) -> Option<&'a [Input]>
    ensures { option_map (λ r. map place_of r.now) result ≡ rest_after same_input ((process.now, variable.now) ∷ []) (map place_of inputs.now) }
{
    match inputs.split_first() {
        Some((input, rest)) if *process == input.process && *variable == input.variable => {
            Some(rest)
        }
        _ => None,
    }
}

// The inputs behind those of a process, where they begin with them.
fn behind_process<'a>(inputs: &'a [Input], process: &Pid, decls: &Decls) -> Option<&'a [Input]>
    ensures { option_map (λ r. map place_of r.now) result ≡ rest_after same_input (inputs_at process.now decls.now) (map place_of inputs.now) }
{
    let mut rest = inputs;
    for decl in &decls.items {
        if let Decl::Input(x, _) = decl {
            rest = behind_input(rest, process, x)?;
        }
    }
    Some(rest)
}

// The inputs behind those of so many members of a role, where they begin with them.
#[tactic(auto, using(crate::proofs::Walks::no_inputs, crate::proofs::Walks::one_member))]
fn behind_members<'a>(inputs: &'a [Input], role: &Role, members: u32) -> Option<&'a [Input]>
    ensures { option_map (λ r. map place_of r.now) result ≡ rest_after same_input (inputs_of role.now.name role.now.decls 0 members) (map place_of inputs.now) }
{
    if !has_input(&role.decls) {
        return Some(inputs);
    }
    let mut rest = inputs;
    for member in 0..members {
        let process = Pid {
            role: role.name,
            member,
        };
        rest = behind_process(rest, &process, &role.decls)?;
    }
    Some(rest)
}

// The inputs behind those of all processes of a role, where they begin with them.
fn behind_role<'a>(inputs: &'a [Input], role: &Role, sizes: &Sizes) -> Option<&'a [Input]>
    ensures { option_map (λ r. map place_of r.now) result ≡ rest_after same_input (role_inputs (instance_with sizes.now) (text_of role.now)) (map place_of inputs.now) }
{
    behind_members(inputs, role, members_of(role, sizes))
}

// Whether the inputs are those of the processes, in order.
#[tactic(auto, using(crate::proofs::Walks::one_role))]
fn are_inputs_given(roles: &Roles, sizes: &Sizes, inputs: &Inputs) -> bool
    ensures { result ≡ is_whole (rest_after same_input (all_inputs (instance_with sizes.now) roles.now) (map place_of inputs.now)) }
{
    let mut rest = inputs.items.as_slice();
    for role in &roles.items {
        match behind_role(rest, role, sizes) {
            Some(behind) => rest = behind,
            None => return false,
        }
    }
    rest.is_empty()
}

fn has_tag(e: &EnumDecl, tag: &Name) -> bool
    ensures { result ≡ list_any (same_name tag.now) e.now.tags }
{
    e.tags.items.iter().any(|other| tag == other)
}

fn is_tag(enums: &Enums, of: &Name, tag: &Name) -> bool
    ensures { result ≡ is_tag_of enums.now of.now tag.now }
{
    enums.items.iter().any(|e| of == &e.name && has_tag(e, tag))
}

/// Whether the value is of the kind; a tag is one of its enumeration's.
pub fn is_of_kind(enums: &Enums, kind: &Kind, value: Value) -> bool
    ensures { IsTrue result ↔ IsOfKind enums.now kind.now value }
{
    match (kind, value) {
        (Kind::Int, Value::Int(_)) | (Kind::Bool, Value::Bool(_)) => true,
        (Kind::Enum(e), Value::Tag(of, tag)) => *e == of && is_tag(enums, e, &tag),
        _ => false,
    }
}

// Whether a process has a value of its kind for the input, if it is one.
fn input_fits(enums: &Enums, given: &Store, process: &Pid, decl: &Decl) -> bool
    ensures { IsTrue result ↔ InputFits enums.now (instance_from given.now) process.now decl.now }
{
    match decl {
        Decl::Var(_, _, _) => true,
        Decl::Input(_, kind) => is_of_kind(enums, kind, declared_value(given, process, decl)),
    }
}

fn process_fits(enums: &Enums, given: &Store, process: &Pid, decls: &Decls) -> bool
    ensures { IsTrue result ↔ AllByRecursion (InputFits enums.now (instance_from given.now) process.now) decls.now }
{
    for decl in &decls.items {
        if !input_fits(enums, given, process, decl) {
            return false;
        }
    }
    true
}

// Whether each process of a role fits.
fn members_fit(enums: &Enums, given: &Store, role: &Role, members: u32) -> bool
    ensures { IsTrue result ↔ ((k : ℕ) → k < members → AllByRecursion (InputFits enums.now (instance_from given.now) (member role.now.name k)) role.now.decls) }
{
    if !has_input(&role.decls) {
        return true;
    }
    for member in 0..members {
        let process = Pid {
            role: role.name,
            member,
        };
        if !process_fits(enums, given, &process, &role.decls) {
            return false;
        }
    }
    true
}

/// The least number of a role's processes.
pub fn least_members(role: &Role) -> u32
    ensures { result ≡ least (text_of role.now) }
{
    if role.nonempty { 1 } else { 0 }
}

// Whether a role has its least size, and each of its processes fits.
fn role_fits(enums: &Enums, given: &Store, role: &Role, sizes: &Sizes) -> bool
    ensures { IsTrue result ↔ RoleFits enums.now (instance_given sizes.now given.now) (text_of role.now) }
{
    let members = members_of(role, sizes);
    least_members(role) <= members && members_fit(enums, given, role, members)
}

// Whether each role fits.
fn roles_fit(enums: &Enums, roles: &Roles, sizes: &Sizes, given: &Store) -> bool
    ensures { IsTrue result ↔ AllByRecursion (RoleFits enums.now (instance_given sizes.now given.now)) roles.now }
{
    for role in &roles.items {
        if !role_fits(enums, given, role, sizes) {
            return false;
        }
    }
    true
}

/// Whether the instance fits and isn't too heavy to be started.
pub fn judge(
    alloc: Global,
    enums: &Enums,
    roles: &Roles,
    instance: &Instance,
) -> Result<(), StartFault>
    ensures ok { IfOk result (λ _. IsReady enums.now roles.now instance.now) }
    ensures err { IfErr result (IsCause enums.now roles.now instance.now) }
{
    if !are_sizes_given(roles, &instance.sizes) {
        return Err(StartFault::BadInstance);
    }
    if !are_inputs_given(roles, &instance.sizes, &instance.inputs) {
        return Err(StartFault::BadInstance);
    }
    let given = given_values(alloc, &instance.inputs)?;
    if !roles_fit(enums, roles, &instance.sizes, &given) {
        return Err(StartFault::BadInstance);
    }
    if weight(roles, &instance.sizes) > MOST_WEIGHT {
        return Err(StartFault::TooLarge);
    }
    Ok(())
}
