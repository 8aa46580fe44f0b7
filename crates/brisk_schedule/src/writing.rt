//! Schedules, written.
ghost use Rattle.std.specs.Prelude.{◌≡◌, ◌++◌, IfOk, OnOk, [], ◌∷◌, map, option_map};
ghost use Rattle.brisk_schedule.specs.Texts.{event_line, input_line, instance_lines, is_sized as has_size, process_of as process_with, schedule_text, size_line, text_of_lines, written as written_in};

use crate::schedule::{Events, Schedule};
use brisk_async::Event;
use brisk_lines::{Line, Process, put_line};
use brisk_values::{Inputs, Instance, Name, NoMemory, Pid, Sizes};
use std::alloc::Global;

/// Whether there is a size for the role.
pub fn is_sized(sizes: &Sizes, role: &Name) -> bool
    ensures { result ≡ has_size sizes.now role.now }
{
    for size in &sizes.items {
        if *role == size.0 {
            return true;
        }
    }
    false
}

/// How a process is written: with its number where it is a member of a set.
pub fn process_of(many: bool, process: &Pid) -> Process
    ensures { result ≡ process_with many process.now }
{
    Process {
        role: process.role,
        member: if many { Some(process.member) } else { None },
    }
}

/// The same, where the sets are those that have a size.
pub fn written(sizes: &Sizes, process: &Pid) -> Process
    ensures { result ≡ written_in sizes.now process.now }
{
    process_of(is_sized(sizes, &process.role), process)
}

fn sender_written(sizes: &Sizes, sender: &Option<Pid>) -> Option<Process>
    ensures { result ≡ option_map (written_in sizes.now) sender.now }
{
    match sender {
        Some(process) => Some(written(sizes, process)),
        None => None,
    }
}

fn put_sizes(out: &mut Vec<u8>, sizes: &Sizes) -> Result<(), NoMemory>
    ensures { OnOk result (out.new.items ≡ out.old.items ++ text_of_lines (map size_line sizes.now)) }
{
    for size in &sizes.items {
        put_line(out, &Line::Size(size.0, size.1))?;
    }
    Ok(())
}

fn put_inputs(out: &mut Vec<u8>, sizes: &Sizes, inputs: &Inputs) -> Result<(), NoMemory>
    ensures { OnOk result (out.new.items ≡ out.old.items ++ text_of_lines (map (input_line sizes.now) inputs.now)) }
{
    for input in &inputs.items {
        let process = written(sizes, &input.process);
        put_line(out, &Line::Input(process, input.variable, input.value))?;
    }
    Ok(())
}

fn put_instance(out: &mut Vec<u8>, instance: &Instance) -> Result<(), NoMemory>
    ensures { OnOk result (out.new.items ≡ out.old.items ++ text_of_lines (instance_lines instance.now)) }
{
    put_sizes(out, &instance.sizes)?;
    put_inputs(out, &instance.sizes, &instance.inputs)
}

fn put_event(out: &mut Vec<u8>, sizes: &Sizes, event: &Event) -> Result<(), NoMemory>
    ensures { OnOk result (out.new.items ≡ out.old.items ++ text_of_lines (event_line sizes.now event.now ∷ [])) }
{
    let process = written(sizes, &event.process);
    let sender = sender_written(sizes, &event.sender);
    put_line(out, &Line::Event(process, sender, event.place))
}

fn put_events(out: &mut Vec<u8>, sizes: &Sizes, events: &Events) -> Result<(), NoMemory>
    ensures { OnOk result (out.new.items ≡ out.old.items ++ text_of_lines (map (event_line sizes.now) events.now)) }
{
    for event in &events.items {
        put_event(out, sizes, event)?;
    }
    Ok(())
}

/// The text of a schedule.
pub fn write(alloc: Global, schedule: &Schedule) -> Result<Vec<u8>, NoMemory>
    ensures { IfOk result (λ v. v.items ≡ schedule_text schedule.now) }
{
    let mut out = Vec::new(alloc);
    put_line(&mut out, &Line::Schedule)?;
    put_instance(&mut out, &schedule.instance)?;
    put_events(&mut out, &schedule.instance.sizes, &schedule.events)?;
    put_line(&mut out, &Line::End)?;
    Ok(out)
}
