//! Plain runs: the first process that has an enabled event takes it, from the lowest sender and place.
ghost use Rattle.std.specs.Prelude.{◌≡◌, ◌++◌, ◌∷◌, [], Some, IfOk, OnOk, IsSome};
ghost use Rattle.brisk_syntax.specs.Declarations.{is_loose as is_loose_in};
ghost use Rattle.brisk_syntax.specs.WellTyped.{IsProgramWellTyped};
ghost use Rattle.brisk_instance.specs.Given.{FitsAsGiven, instance_of, members};
ghost use Rattle.brisk_async.specs.Machine.{run, start as start_of, step};
ghost use Rattle.brisk_async.specs.PlainRuns.{first_enabled, plain_events, plain_from, plain_next, plain_order as order_of, plain_place};
ghost use Rattle.brisk_async.specs.States.{state_of};
ghost use Rattle.brisk_trace.specs.Plain.{any_events, event_in, set_members, singles};

use brisk_async::{Event, Machine, StepFault};
use brisk_schedule::Events;
use brisk_syntax::{AnyRecv, Channels, Program, Roles, Stmt, size_of_set};
use brisk_values::{Instance, Name, NoMemory, Pid};
use std::alloc::Global;

/// The greatest number of events of a plain run.
pub const MOST_EVENTS: u32 = 100_000;

// Adds the members of a set.
fn add_members(order: &mut Vec<Pid>, set: &Name, size: u32) -> Result<(), NoMemory>
    ensures { OnOk result (order.new.items ≡ order.old.items ++ members set.now size) }
{
    for member in 0..size {
        order.push(Pid { role: *set, member })?;
    }
    Ok(())
}

// Adds the members of the sets.
fn add_sets(order: &mut Vec<Pid>, roles: &Roles, size: u32) -> Result<(), NoMemory>
    ensures { OnOk result (order.new.items ≡ order.old.items ++ set_members roles.now size) }
{
    for role in &roles.items {
        if role.many {
            add_members(order, &role.name, size)?;
        }
    }
    Ok(())
}

// Adds the single roles.
fn add_singles(order: &mut Vec<Pid>, roles: &Roles) -> Result<(), NoMemory>
    ensures { OnOk result (order.new.items ≡ order.old.items ++ singles roles.now) }
{
    for role in &roles.items {
        if !role.many {
            order.push(Pid {
                role: role.name,
                member: 0,
            })?;
        }
    }
    Ok(())
}

/// The processes in the order of the plain run at this size.
pub fn plain_order(alloc: Global, program: &Program, size: u32) -> Result<Vec<Pid>, NoMemory>
    ensures { IfOk result (λ ps. ps.items ≡ order_of program.now size) }
{
    let mut order = Vec::new(alloc);
    add_sets(&mut order, &program.roles, size)?;
    add_singles(&mut order, &program.roles)?;
    Ok(order)
}

// The place that is given on a channel.
fn place_on(channels: &Channels, channel: &Name) -> Option<u32>
    ensures { result ≡ plain_place (is_loose_in channels.now channel.now) }
{
    if channels.is_loose(channel) {
        Some(0)
    } else {
        None
    }
}

// The event, where it is enabled.
fn if_enabled(machine: &Machine, event: &Event) -> Option<Event>
    ensures { result ≡ event_in (first_enabled (state_of machine.now) (event.now ∷ [])) }
{
    if machine.enabled(event) {
        Some(*event)
    } else {
        None
    }
}

// The enabled event of a receive from any that takes the lowest sender.
fn from_lowest(machine: &Machine, program: &Program, process: &Pid, any: &AnyRecv) -> Option<Event>
    requires { machine.now.program ≡ program.now }
    ensures { let s = state_of machine.now in result ≡ event_in (first_enabled s (any_events s process.now any.now.channel any.now.set)) }
{
    let place = place_on(&program.channels, &any.channel);
    for member in 0..size_of_set(machine.sizes(), &any.set) {
        let event = Event {
            process: *process,
            sender: Some(Pid {
                role: any.set,
                member,
            }),
            place,
        };
        if machine.enabled(&event) {
            return Some(event);
        }
    }
    None
}

// The event that the plain run takes of a process, where it has one that is enabled.
fn event_of(machine: &Machine, program: &Program, process: &Pid) -> Option<Event>
    requires { machine.now.program ≡ program.now }
    ensures { let s = state_of machine.now in result ≡ event_in (first_enabled s (plain_events s process.now (s.code process.now))) }
{
    let place = match machine.code(*process)?.first()? {
        Stmt::RecvAny(any) => return from_lowest(machine, program, process, any),
        Stmt::Recv(channel, _, _) => place_on(&program.channels, channel),
        _ => None,
    };
    if_enabled(
        machine,
        &Event {
            process: *process,
            sender: None,
            place,
        },
    )
}

/// The event that the plain run takes, where one is enabled.
pub fn next_event(machine: &Machine, program: &Program, order: &[Pid]) -> Option<Event>
    requires { machine.now.program ≡ program.now }
    ensures { result ≡ event_in (plain_next order.now (state_of machine.now)) }
{
    for process in order {
        if let Some(event) = event_of(machine, program, process) {
            return Some(event);
        }
    }
    None
}

/// Takes an event that is enabled.
pub fn take(machine: &mut Machine, event: &Event) -> Result<(), NoMemory>
    requires { IsSome (step (state_of machine.old) event.now) }
    ensures { OnOk result (step (state_of machine.old) event.now ≡ Some (state_of machine.new)) }
{
    if let Err(why) = machine.step(event) {
        prove!(matches!(why, StepFault::NoMemory));
        return Err(NoMemory);
    }
    Ok(())
}

/// A plain run: the events, and the machine as it stands after them.
#[derive(Drop)]
pub struct PlainRun {
    pub events: Events,
    pub machine: Machine,
}

/// The plain run of an instance, of so many events at most.
pub fn plain_run(
    alloc: Global,
    program: &Program,
    instance: &Instance,
    order: &[Pid],
    most: u32,
) -> Result<PlainRun, NoMemory>
    requires typed { IsProgramWellTyped program.now }
    requires fits { FitsAsGiven program.now.enums program.now.roles instance.now }
    ensures events { IfOk result (λ r. r.events ≡ plain_from most order.now (start_of program.now (instance_of instance.now))) }
    ensures reached { IfOk result (λ r. run (start_of program.now (instance_of instance.now)) r.events ≡ Some (state_of r.machine)) }
{
    let mut machine = Machine::begin(alloc, program, instance)?;
    let mut items = Vec::new(alloc);
    for _ in 0..most {
        let Some(event) = next_event(&machine, program, order) else {
            break;
        };
        let event = &event;
        take(&mut machine, event)?;
        items.push(*event)?;
    }
    Ok(PlainRun {
        events: Events { items },
        machine,
    })
}
