//! The store in which an instance starts.
ghost use Rattle.std.specs.Prelude.{◌≡◌, IfOk, OnOk};
ghost use Rattle.std.specs.FinMap as map;
ghost use Rattle.brisk_values.specs.declared.value.Pid.{Pid as Process};
ghost use Rattle.brisk_values.specs.Names.{Name};
ghost use Rattle.brisk_values.specs.Places.{value_in};
ghost use Rattle.brisk_syntax.specs.Instance.{start_store as values_at_start};
ghost use Rattle.brisk_syntax.specs.Texts.{text_of};
ghost use Rattle.brisk_syntax.specs.Value.{size_in};
ghost use Rattle.brisk_instance.specs.Begun.{declared_value as value_of_declared, members_of as number_of_members, with_values, with_members, with_roles};
ghost use Rattle.brisk_instance.specs.Given.{AreApart, instance_of, with_inputs};

use brisk_syntax::{Decl, Decls, Role, Roles, size_of_set};
use brisk_values::{Inputs, Instance, NoMemory, Pid, Sizes, Store, Value};
use std::alloc::Global;

/// The number of a role's processes: 1 for a single role, and the size of a set.
pub fn members_of(role: &Role, sizes: &Sizes) -> u32
    ensures { result ≡ number_of_members (size_in sizes.now) (text_of role.now) }
{
    if role.many {
        size_of_set(sizes, &role.name)
    } else {
        1
    }
}

// The given values of the inputs.
pub(crate) fn given_values(alloc: Global, inputs: &Inputs) -> Result<Store, NoMemory>
    ensures { IfOk result (λ s. s ≡ with_inputs inputs.now map.empty) }
{
    let mut store = Store::new(alloc);
    for input in &inputs.items {
        store.set(input.process, input.variable, input.value)?;
    }
    Ok(store)
}

// The value with which a variable of a process starts.
pub(crate) fn declared_value(given: &Store, process: &Pid, decl: &Decl) -> Value
    ensures { result ≡ value_of_declared given.now process.now decl.now }
{
    match decl {
        Decl::Var(_, _, constant) => constant.value(),
        Decl::Input(x, _) => match given.get(*process, *x) {
            Some(v) => v,
            None => Value::Bool(false),
        },
    }
}

// Stores the values with which the variables of a process start.
fn add_values(
    store: &mut Store,
    given: &Store,
    process: &Pid,
    decls: &Decls,
) -> Result<(), NoMemory>
    ensures { OnOk result (store.new ≡ with_values given.now process.now decls.now store.old) }
{
    for decl in &decls.items {
        store.set(
            *process,
            decl.variable(),
            declared_value(given, process, decl),
        )?;
    }
    Ok(())
}

// Stores those of each process of a role.
fn add_members(store: &mut Store, given: &Store, role: &Role, members: u32) -> Result<(), NoMemory>
    ensures { OnOk result (store.new ≡ with_members given.now role.now.name role.now.decls members store.old) }
{
    for member in 0..members {
        let process = Pid {
            role: role.name,
            member,
        };
        add_values(store, given, &process, &role.decls)?;
    }
    Ok(())
}

// The store with the declared values, and with the given ones for the inputs.
fn with_given(alloc: Global, roles: &Roles, sizes: &Sizes, given: &Store) -> Result<Store, NoMemory>
    ensures { IfOk result (λ s. s ≡ with_roles given.now (size_in sizes.now) roles.now map.empty) }
{
    let mut store = Store::new(alloc);
    for role in &roles.items {
        add_members(&mut store, given, role, members_of(role, sizes))?;
    }
    Ok(store)
}

/// The store in which the instance starts: the declared values, and the given ones for the inputs. An input that
/// isn't given starts as false.
pub fn start_store(alloc: Global, roles: &Roles, instance: &Instance) -> Result<Store, NoMemory>
    requires { AreApart roles.now }
    ensures { IfOk result (λ s. (p : Process) (x : Name) → value_in s p x ≡ values_at_start roles.now (instance_of instance.now) p x) }
{
    let given = given_values(alloc, &instance.inputs)?;
    with_given(alloc, roles, &instance.sizes, &given)
}
