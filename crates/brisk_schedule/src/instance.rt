//! An instance, read: the head of a text, the sizes of the sets and the values of the inputs.
ghost use Rattle.std.specs.Prelude.{◌≡◌, ◌≤◌, ◌↔◌, ℕ, [], IfOk, IfErr, IsTrue, MatchOption, OnOk};
ghost use Rattle.brisk_values.specs.declared.value.Value.{Value as AValue};
ghost use Rattle.brisk_lines.specs.declared.line.Line.TheVariants as l;
ghost use Rattle.brisk_syntax.specs.Instance.{IsOfKind, least};
ghost use Rattle.brisk_syntax.specs.Texts.{text_of};
ghost use Rattle.brisk_instance.specs.Given.{instance_with};
ghost use Rattle.brisk_instance.specs.Ordered.{IsInputAt, IsSizeOf, role_slots, sets, slots, slots_at, slots_of};
ghost use Rattle.brisk_schedule.specs.Reading.{Fails, TellsSize, TellsValue, head_line};
ghost use Rattle.brisk_schedule.specs.Taking.{IsUnwanted, Lacks, TakesAll, TakesInstance, TakesLine};
ghost use Rattle.brisk_schedule.specs.Texts.{input_line as line_of_input, size_line as line_of_size, written as written_in};

use crate::fault::ScheduleFault;
use crate::format::Format;
use crate::lines::Lines;
use crate::writing::written;
use brisk_instance::{MOST_WEIGHT, is_of_kind, least_members, members_of, weight};
use brisk_lines::{Line, Process};
use brisk_syntax::{Decl, Decls, Enums, Role, Roles};
use brisk_values::{Input, Inputs, Instance, Kind, Name, Pid, Sizes, Value};
use std::alloc::Global;

// Whether the line is the head of a text of the format.
fn is_head(format: Format, line: &Line) -> bool
    ensures { IsTrue result ↔ (line.now ≡ head_line format) }
{
    match format {
        Format::Schedule => matches!(line, Line::Schedule),
        Format::Choices => matches!(line, Line::Choices),
    }
}

// The head of the text.
fn read_head(lines: &mut Lines<'_>, format: Format) -> Result<(), ScheduleFault>
    ensures ok { OnOk result (TakesLine lines.old (head_line format) lines.new) }
    ensures err { IfErr result (IsUnwanted (λ line. line ≡ head_line format) lines.old) }
{
    let Some(line) = lines.next() else {
        return Err(lines.excess());
    };
    if is_head(format, &line) {
        Ok(())
    } else {
        Err(lines.misfit())
    }
}

// The size that the line tells, if it is that of the set, and no less than its least.
fn size_of(role: &Role, line: &Line) -> Option<u32>
    ensures { MatchOption result ((n : ℕ) → line.now ≡ l.Size role.now.name n → least (text_of role.now) ≤ n → ⊥) (λ n. (line.now ≡ l.Size role.now.name n) × (least (text_of role.now) ≤ n)) }
{
    match line {
        Line::Size(set, size) => {
            if *set == role.name && least_members(role) <= *size {
                Some(*size)
            } else {
                None
            }
        }
        _ => None,
    }
}

// The size of a set.
fn read_size(lines: &mut Lines<'_>, role: &Role) -> Result<u32, ScheduleFault>
    ensures line { IfOk result (λ n. TakesLine lines.old (l.Size role.now.name n) lines.new) }
    ensures enough { IfOk result (λ n. least (text_of role.now) ≤ n) }
    ensures err { IfErr result (IsUnwanted (TellsSize (text_of role.now)) lines.old) }
{
    let Some(line) = lines.next() else {
        return Err(lines.excess());
    };
    match size_of(role, &line) {
        Some(size) => Ok(size),
        None => Err(lines.misfit()),
    }
}

// The sizes of the sets.
fn read_sizes(alloc: Global, lines: &mut Lines<'_>, roles: &Roles) -> Result<Sizes, ScheduleFault>
    ensures ok { IfOk result (λ s. TakesAll IsSizeOf line_of_size (sets roles.now) lines.old lines.new [] s) }
    ensures err { IfErr result (Lacks TellsSize lines.old (sets roles.now)) }
{
    let mut items = Vec::new(alloc);
    for role in &roles.items {
        if role.many {
            let size = read_size(lines, role)?;
            items.push((role.name, size))?;
        }
    }
    Ok(Sizes { items })
}

// The value that the line tells, if it is that of this input of the process, which is written so, and of its kind.
fn value_of(
    enums: &Enums,
    process: &Process,
    variable: &Name,
    kind: &Kind,
    line: &Line,
) -> Option<Value>
    ensures { MatchOption result ((v : AValue) → line.now ≡ l.Input process.now variable.now v → IsOfKind enums.now kind.now v → ⊥) (λ v. (line.now ≡ l.Input process.now variable.now v) × IsOfKind enums.now kind.now v) }
{
    match line {
        Line::Input(named, input, value) => {
            if *named == *process && *input == *variable && is_of_kind(enums, kind, *value) {
                Some(*value)
            } else {
                None
            }
        }
        _ => None,
    }
}

// The value of an input.
fn read_value(
    lines: &mut Lines<'_>,
    enums: &Enums,
    sizes: &Sizes,
    process: &Pid,
    variable: &Name,
    kind: &Kind,
) -> Result<Value, ScheduleFault>
    ensures line { IfOk result (λ v. TakesLine lines.old (l.Input (written_in sizes.now process.now) variable.now v) lines.new) }
    ensures kind { IfOk result (λ v. IsOfKind enums.now kind.now v) }
    ensures err { IfErr result (IsUnwanted (TellsValue enums.now sizes.now (record { process = process.now; variable = variable.now; kind = kind.now })) lines.old) }
{
    let Some(line) = lines.next() else {
        return Err(lines.excess());
    };
    let process = written(sizes, process);
    match value_of(enums, &process, variable, kind, &line) {
        Some(value) => Ok(value),
        None => Err(lines.misfit()),
    }
}

// The inputs of a process.
fn read_process(
    inputs: &mut Vec<Input>,
    lines: &mut Lines<'_>,
    enums: &Enums,
    sizes: &Sizes,
    process: &Pid,
    decls: &Decls,
) -> Result<(), ScheduleFault>
    ensures ok { OnOk result (TakesAll (IsInputAt enums.now) (line_of_input sizes.now) (slots_at process.now decls.now) lines.old lines.new inputs.old.items inputs.new.items) }
    ensures err { IfErr result (Lacks (TellsValue enums.now sizes.now) lines.old (slots_at process.now decls.now)) }
{
    for decl in &decls.items {
        if let Decl::Input(variable, kind) = decl {
            let value = read_value(lines, enums, sizes, process, variable, kind)?;
            inputs.push(Input {
                process: *process,
                variable: *variable,
                value,
            })?;
        }
    }
    Ok(())
}

// The inputs of so many members of a role.
fn read_members(
    inputs: &mut Vec<Input>,
    lines: &mut Lines<'_>,
    enums: &Enums,
    sizes: &Sizes,
    role: &Role,
    members: u32,
) -> Result<(), ScheduleFault>
    ensures ok { OnOk result (TakesAll (IsInputAt enums.now) (line_of_input sizes.now) (slots_of role.now.name role.now.decls 0 members) lines.old lines.new inputs.old.items inputs.new.items) }
    ensures err { IfErr result (Lacks (TellsValue enums.now sizes.now) lines.old (slots_of role.now.name role.now.decls 0 members)) }
{
    for member in 0..members {
        let process = Pid {
            role: role.name,
            member,
        };
        read_process(inputs, lines, enums, sizes, &process, &role.decls)?;
    }
    Ok(())
}

// The inputs of all processes of a role.
fn read_role(
    inputs: &mut Vec<Input>,
    lines: &mut Lines<'_>,
    enums: &Enums,
    sizes: &Sizes,
    role: &Role,
) -> Result<(), ScheduleFault>
    ensures ok { OnOk result (TakesAll (IsInputAt enums.now) (line_of_input sizes.now) (role_slots (instance_with sizes.now) (text_of role.now)) lines.old lines.new inputs.old.items inputs.new.items) }
    ensures err { IfErr result (Lacks (TellsValue enums.now sizes.now) lines.old (role_slots (instance_with sizes.now) (text_of role.now))) }
{
    read_members(inputs, lines, enums, sizes, role, members_of(role, sizes))
}

// The inputs of all processes.
fn read_inputs(
    alloc: Global,
    lines: &mut Lines<'_>,
    enums: &Enums,
    roles: &Roles,
    sizes: &Sizes,
) -> Result<Inputs, ScheduleFault>
    ensures ok { IfOk result (λ g. TakesAll (IsInputAt enums.now) (line_of_input sizes.now) (slots (instance_with sizes.now) roles.now) lines.old lines.new [] g) }
    ensures err { IfErr result (Lacks (TellsValue enums.now sizes.now) lines.old (slots (instance_with sizes.now) roles.now)) }
{
    let mut items = Vec::new(alloc);
    for role in &roles.items {
        read_role(&mut items, lines, enums, sizes, role)?;
    }
    Ok(Inputs { items })
}

/// Reads an instance from the beginning of a text: its head, a line for the size of each set, and one for the value of
/// each input.
pub fn read_instance(
    alloc: Global,
    lines: &mut Lines<'_>,
    format: Format,
    enums: &Enums,
    roles: &Roles,
) -> Result<Instance, ScheduleFault>
    requires start { lines.old.number ≡ 0 }
    requires format { lines.old.format ≡ format }
    ensures ok { IfOk result (TakesInstance enums.now roles.now lines.old lines.new) }
    ensures err { IfErr result (Fails format enums.now roles.now lines.old.rest) }
{
    read_head(lines, format)?;
    let sizes = read_sizes(alloc, lines, roles)?;
    if weight(roles, &sizes) > MOST_WEIGHT {
        return Err(ScheduleFault::TooLarge(lines.taken()));
    }
    let inputs = read_inputs(alloc, lines, enums, roles, &sizes)?;
    Ok(Instance { sizes, inputs })
}
