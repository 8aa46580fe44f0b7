//! The texts of a store and of how a schedule ended.
ghost use Rattle.std.specs.Prelude.{◌≡◌, ◌++◌, IfOk, OnOk, flat_map};
ghost use Rattle.brisk_values.specs.Places.{value_in};
ghost use Rattle.brisk_syntax.specs.Texts.{text_of};
ghost use Rattle.brisk_syntax.specs.Typing.{is_set as is_set_of};
ghost use Rattle.brisk_syntax.specs.Value.{or_false, size_in};
ghost use Rattle.brisk_async.specs.Keys.{code_in_map};
ghost use Rattle.brisk_async.specs.States.{state_of};
ghost use Rattle.brisk_schedule.specs.Printing.{IsPlayedText, ended_text, ends_text, queue_line, left_lines, left_text, member_lines, named_text, role_lines, shown, store_text, order_text, variable_line, variable_lines, why_text};

use crate::played::{Ended, Played};
use crate::writing::process_of;
use brisk_async::{Machine, Queue, StepFault};
use brisk_instance::members_of;
use brisk_lines::put_process;
use brisk_print::print_head;
use brisk_seq::SeqProgram;
use brisk_syntax::{Program, Role, Roles};
use brisk_text::{put, put_number, put_value};
use brisk_values::{Instance, Name, NoMemory, Pid, Sizes, Store, Value};
use std::alloc::Global;

// A process; a member of a set with its number.
#[tactic(auto, unfolding(crate::specs::Printing::shown))]
fn put_shown(out: &mut Vec<u8>, many: bool, process: &Pid) -> Result<(), NoMemory>
    ensures { OnOk result (out.new.items ≡ out.old.items ++ shown many process.now) }
{
    put_process(out, &process_of(many, process))
}

// The line of a variable; what has no value is shown as false.
fn put_variable(
    out: &mut Vec<u8>,
    role: &Role,
    process: &Pid,
    variable: Name,
    store: &Store,
) -> Result<(), NoMemory>
    ensures { OnOk result (out.new.items ≡ out.old.items ++ variable_line (text_of role.now) process.now variable (or_false (value_in store.now process.now variable))) }
{
    let value = store.get(*process, variable).unwrap_or(Value::Bool(false));
    put_shown(out, role.many, process)?;
    put(out, b".")?;
    put(out, variable.bytes())?;
    put(out, b" = ")?;
    put_value(out, &value)?;
    put(out, b"\n")
}

fn put_variables(
    out: &mut Vec<u8>,
    role: &Role,
    process: &Pid,
    store: &Store,
) -> Result<(), NoMemory>
    ensures { OnOk result (out.new.items ≡ out.old.items ++ variable_lines (value_in store.now) (text_of role.now) process.now) }
{
    for decl in &role.decls.items {
        put_variable(out, role, process, decl.variable(), store)?;
    }
    Ok(())
}

// The lines of the variables of so many members of a role.
fn put_members(out: &mut Vec<u8>, role: &Role, members: u32, store: &Store) -> Result<(), NoMemory>
    ensures { OnOk result (out.new.items ≡ out.old.items ++ member_lines (variable_lines (value_in store.now)) (text_of role.now) 0 members) }
{
    for member in 0..members {
        let process = Pid {
            role: role.name,
            member,
        };
        put_variables(out, role, &process, store)?;
    }
    Ok(())
}

fn put_role(out: &mut Vec<u8>, role: &Role, sizes: &Sizes, store: &Store) -> Result<(), NoMemory>
    ensures { OnOk result (out.new.items ≡ out.old.items ++ role_lines (size_in sizes.now) (variable_lines (value_in store.now)) (text_of role.now)) }
{
    put_members(out, role, members_of(role, sizes), store)
}

// A store, by role, member and declaration.
fn put_store(out: &mut Vec<u8>, roles: &Roles, sizes: &Sizes, store: &Store) -> Result<(), NoMemory>
    ensures { OnOk result (out.new.items ≡ out.old.items ++ store_text (size_in sizes.now) roles.now (value_in store.now)) }
{
    for role in &roles.items {
        put_role(out, role, sizes, store)?;
    }
    Ok(())
}

/// The text of a store in which a sequential program has halted: the line `halted`, and a line for each variable, by
/// role, member and declaration. A variable without a value is shown as false.
pub fn print_store(
    alloc: Global,
    program: &SeqProgram,
    instance: &Instance,
    store: &Store,
) -> Result<Vec<u8>, NoMemory>
    ensures { IfOk result (λ v. v.items ≡ order_text (size_in instance.now.sizes) program.now.roles (value_in store.now)) }
{
    let mut out = Vec::new(alloc);
    put(&mut out, b"halted\n")?;
    put_store(&mut out, &program.roles, &instance.sizes, store)?;
    Ok(out)
}

// The line of what a process has left to do, if it has.
fn put_left(
    alloc: Global,
    out: &mut Vec<u8>,
    role: &Role,
    process: &Pid,
    machine: &Machine,
) -> Result<(), NoMemory>
    ensures { OnOk result (out.new.items ≡ out.old.items ++ left_lines (code_in_map machine.now.codes) (text_of role.now) process.now) }
{
    let Some(code) = machine.code(*process) else {
        return Ok(());
    };
    let Some(head) = code.first() else {
        return Ok(());
    };
    put(out, b"left ")?;
    put_shown(out, role.many, process)?;
    put(out, b": ")?;
    put(out, &print_head(alloc, head)?)?;
    put(out, b"\n")
}

// The lines of what so many members of a role have left to do.
fn put_left_members(
    alloc: Global,
    out: &mut Vec<u8>,
    role: &Role,
    members: u32,
    machine: &Machine,
) -> Result<(), NoMemory>
    ensures { OnOk result (out.new.items ≡ out.old.items ++ member_lines (left_lines (code_in_map machine.now.codes)) (text_of role.now) 0 members) }
{
    for member in 0..members {
        let process = Pid {
            role: role.name,
            member,
        };
        put_left(alloc, out, role, &process, machine)?;
    }
    Ok(())
}

fn put_left_role(
    alloc: Global,
    out: &mut Vec<u8>,
    role: &Role,
    machine: &Machine,
) -> Result<(), NoMemory>
    ensures { OnOk result (out.new.items ≡ out.old.items ++ role_lines (size_in machine.now.sizes) (left_lines (code_in_map machine.now.codes)) (text_of role.now)) }
{
    put_left_members(alloc, out, role, members_of(role, machine.sizes()), machine)
}

// What the processes have left to do.
fn put_all_left(
    alloc: Global,
    out: &mut Vec<u8>,
    roles: &Roles,
    machine: &Machine,
) -> Result<(), NoMemory>
    ensures { OnOk result (out.new.items ≡ out.old.items ++ left_text (size_in machine.now.sizes) roles.now (code_in_map machine.now.codes)) }
{
    for role in &roles.items {
        put_left_role(alloc, out, role, machine)?;
    }
    Ok(())
}

fn why(fault: StepFault) -> &'static str
    ensures { result.now ≡ why_text fault }
{
    match fault {
        StepFault::NoProcess => "NoProcess",
        StepFault::Finished => "Finished",
        StepFault::NeedsSender => "NeedsSender",
        StepFault::TakesNoSender => "TakesNoSender",
        StepFault::NoSuchSender => "NoSuchSender",
        StepFault::NeedsPlace => "NeedsPlace",
        StepFault::TakesNoPlace => "TakesNoPlace",
        StepFault::Blocked => "Blocked",
        StepFault::NoSuchPlace => "NoSuchPlace",
        StepFault::NoMemory => "NoMemory",
    }
}

// How a schedule ended.
fn put_ended(out: &mut Vec<u8>, ended: Ended) -> Result<(), NoMemory>
    ensures { OnOk result (out.new.items ≡ out.old.items ++ ended_text ended) }
{
    match ended {
        Ended::Halted => put(out, b"halted\n"),
        Ended::Deadlocked => put(out, b"deadlocked\n"),
        Ended::Running => put(out, b"running\n"),
        Ended::Refused(number, fault) => {
            put(out, b"refused ")?;
            put_number(out, number)?;
            put(out, b" ")?;
            put(out, why(fault).as_bytes())?;
            put(out, b"\n")
        }
    }
}

fn is_set(roles: &Roles, name: &Name) -> bool
    ensures { result ≡ is_set_of roles.now name.now }
{
    for role in &roles.items {
        if *name == role.name && role.many {
            return true;
        }
    }
    false
}

// A process, of which its role says how it is written.
#[tactic(auto, unfolding(crate::specs::Printing::named_text))]
fn put_named(out: &mut Vec<u8>, roles: &Roles, process: &Pid) -> Result<(), NoMemory>
    ensures { OnOk result (out.new.items ≡ out.old.items ++ named_text roles.now process.now) }
{
    put_shown(out, is_set(roles, &process.role), process)
}

// The sender and the receiver of a queue.
#[tactic(auto, unfolding(crate::specs::Printing::ends_text))]
fn put_ends(out: &mut Vec<u8>, roles: &Roles, queue: &Queue) -> Result<(), NoMemory>
    ensures { OnOk result (out.new.items ≡ out.old.items ++ ends_text roles.now queue.now) }
{
    put(out, b"mail ")?;
    put_named(out, roles, &queue.from)?;
    put(out, b" to ")?;
    put_named(out, roles, &queue.to)
}

fn put_queue(out: &mut Vec<u8>, roles: &Roles, queue: &Queue) -> Result<(), NoMemory>
    ensures { OnOk result (out.new.items ≡ out.old.items ++ queue_line roles.now queue.now) }
{
    put_ends(out, roles, queue)?;
    put(out, b" ")?;
    put(out, queue.channel.bytes())?;
    put(out, b" ")?;
    put_number(out, queue.length)?;
    put(out, b"\n")
}

fn put_queues(out: &mut Vec<u8>, roles: &Roles, queues: &[Queue]) -> Result<(), NoMemory>
    ensures { OnOk result (out.new.items ≡ out.old.items ++ flat_map (queue_line roles.now) queues.now) }
{
    for queue in queues {
        put_queue(out, roles, queue)?;
    }
    Ok(())
}

/// The text of how a schedule ended: a line that says so, the store, what the processes have left to do, and the queues
/// that aren't empty.
pub fn print_played(alloc: Global, program: &Program, played: &Played) -> Result<Vec<u8>, NoMemory>
    requires { played.now.machine.program ≡ program.now }
    ensures { IfOk result (λ v. IsPlayedText program.now played.now.ended (state_of played.now.machine) v.items) }
{
    let machine = &played.machine;
    let queues = machine.queues()?;
    let mut out = Vec::new(alloc);
    put_ended(&mut out, played.ended)?;
    put_store(&mut out, &program.roles, machine.sizes(), machine.store())?;
    put_all_left(alloc, &mut out, &program.roles, machine)?;
    put_queues(&mut out, &program.roles, &queues)?;
    Ok(out)
}
