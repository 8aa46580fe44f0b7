//! The instance of a plain run: each set has the same size, and each input is 0, false or the first tag.
ghost use Rattle.std.specs.Prelude.{◌≡◌, ◌++◌, ◌<◌, true, Some, IfOk, OnOk, map};
ghost use Rattle.std.specs.List.{AllByRecursion};
ghost use Rattle.brisk_syntax.specs.Typing.{IsDeclWellTyped, each_has_tag, is_kind};
ghost use Rattle.brisk_syntax.specs.WellTyped.{IsProgramWellTyped};
ghost use Rattle.brisk_instance.specs.Given.{instance_with};
ghost use Rattle.brisk_async.specs.PlainRuns.{first_tag as first_tag_of, plain_value as plain_value_of};
ghost use Rattle.brisk_instance.specs.Ordered.{sets, slots, slots_at, slots_of};
ghost use Rattle.brisk_trace.specs.Plain.{IsPlain, plain_input, plain_size};

use brisk_instance::members_of;
use brisk_syntax::{Decl, Decls, Enums, Program, Role, Roles};
use brisk_values::{Input, Inputs, Instance, Kind, Name, NoMemory, Pid, Sizes, Value};
use std::alloc::Global;

// The first tag of the enumeration of this name.
fn first_tag(enums: &Enums, name: &Name) -> Name
    requires declared { is_kind enums.now (Kind.Enum name.now) ≡ true }
    requires tagged { each_has_tag enums.now ≡ true }
    ensures { result ≡ first_tag_of enums.now name.now }
{
    for e in &enums.items {
        if *name == e.name {
            return e.tags.items[0];
        }
    }
    unreachable!()
}

// The value of an input of this kind.
fn plain_value(enums: &Enums, kind: &Kind) -> Value
    requires declared { is_kind enums.now kind.now ≡ true }
    requires tagged { each_has_tag enums.now ≡ true }
    ensures { result ≡ plain_value_of enums.now (Some kind.now) }
{
    match kind {
        Kind::Int => Value::Int(0),
        Kind::Bool => Value::Bool(false),
        Kind::Enum(e) => Value::Tag(*e, first_tag(enums, e)),
    }
}

// The sizes of the sets.
fn plain_sizes(alloc: Global, roles: &Roles, size: u32) -> Result<Sizes, NoMemory>
    ensures { IfOk result (λ s. s ≡ map (plain_size size) (sets roles.now)) }
{
    let mut items = Vec::new(alloc);
    for role in &roles.items {
        if role.many {
            items.push((role.name, size))?;
        }
    }
    Ok(Sizes { items })
}

// Adds the inputs of a process.
fn add_process(
    inputs: &mut Vec<Input>,
    enums: &Enums,
    process: &Pid,
    decls: &Decls,
) -> Result<(), NoMemory>
    requires declared { AllByRecursion (IsDeclWellTyped enums.now) decls.now }
    requires tagged { each_has_tag enums.now ≡ true }
    ensures { OnOk result (inputs.new.items ≡ inputs.old.items ++ map (plain_input enums.now) (slots_at process.now decls.now)) }
{
    for decl in &decls.items {
        if let Decl::Input(variable, kind) = decl {
            inputs.push(Input {
                process: *process,
                variable: *variable,
                value: plain_value(enums, kind),
            })?;
        }
    }
    Ok(())
}

// Adds the inputs of so many members of a role.
fn add_members(
    inputs: &mut Vec<Input>,
    enums: &Enums,
    role: &Role,
    members: u32,
) -> Result<(), NoMemory>
    requires declared { AllByRecursion (IsDeclWellTyped enums.now) role.now.decls }
    requires tagged { each_has_tag enums.now ≡ true }
    ensures { OnOk result (inputs.new.items ≡ inputs.old.items ++ map (plain_input enums.now) (slots_of role.now.name role.now.decls 0 members)) }
{
    for member in 0..members {
        let process = Pid {
            role: role.name,
            member,
        };
        add_process(inputs, enums, &process, &role.decls)?;
    }
    Ok(())
}

// The inputs of the processes of all roles.
fn plain_inputs(
    alloc: Global,
    enums: &Enums,
    roles: &Roles,
    sizes: &Sizes,
) -> Result<Inputs, NoMemory>
    requires declared { AllByRecursion (λ r. AllByRecursion (IsDeclWellTyped enums.now) r.decls) roles.now }
    requires tagged { each_has_tag enums.now ≡ true }
    ensures { IfOk result (λ i. i ≡ map (plain_input enums.now) (slots (instance_with sizes.now) roles.now)) }
{
    let mut items = Vec::new(alloc);
    for role in &roles.items {
        add_members(&mut items, enums, role, members_of(role, sizes))?;
    }
    Ok(Inputs { items })
}

/// The instance of the plain run at this size.
pub fn plain_instance(alloc: Global, program: &Program, size: u32) -> Result<Instance, NoMemory>
    requires typed { IsProgramWellTyped program.now }
    requires tagged { each_has_tag program.now.enums ≡ true }
    requires some { 0 < size }
    ensures { IfOk result (λ i. IsPlain program.now size i) }
{
    let sizes = plain_sizes(alloc, &program.roles, size)?;
    let inputs = plain_inputs(alloc, &program.enums, &program.roles, &sizes)?;
    Ok(Instance { sizes, inputs })
}
