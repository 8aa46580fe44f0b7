//! Derivations, written in format 2: a compound step that stands twice is a part.
ghost use Rattle.std.specs.Prelude.{◌≡◌, ◌++◌, ◌∷◌, [], map, option_map, IfOk, OnOk};
ghost use Rattle.brisk_derivation.specs.Seen.{step_of};
ghost use Rattle.brisk_derivtext.specs.Parts.{part_lines, parts_lines, place_lines, places_lines};
ghost use Rattle.brisk_derivtext.specs.Shared as spec;
ghost use Rattle.brisk_derivtext.specs.Shared.{met_again, name_from, name_of, opened, part, part_name, second_text, shared, written};
ghost use Rattle.brisk_derivtext.specs.SharedKept.{met_of, steps_at};
ghost use Rattle.brisk_derivtext.specs.Texts.{text_of_lines};
ghost use Rattle.brisk_derivtext.specs.declared.line.Line.TheVariants.{Close as close, Part as part_line, Use as use_line};

use crate::alike::same_step;
use crate::writing::put_first_line;
use brisk_derivation::{Step, Steps};
use brisk_text::{put, put_number};
use brisk_values::NoMemory;
use std::alloc::Global;

/// A compound step that was met, and whether it was met again.
#[derive(Drop)]
struct Met<'a> {
    step: &'a Step,
    again: bool,
}

// A compound step is met.
fn meet<'a>(met: &mut Vec<Met<'a>>, step: &'a Step) -> Result<(), NoMemory>
    ensures { OnOk result (map met_of met.new.items ≡ spec.meet (map met_of met.old.items) (step_of step.now)) }
{
    for i in 0..met.len() {
        if same_step(met[i].step, step) {
            met[i].again = true;
            return Ok(());
        }
    }
    met.push(Met { step, again: false })?;
    Ok(())
}

#[cycle(meeting)]
fn meet_in<'a>(met: &mut Vec<Met<'a>>, step: &'a Step) -> Result<(), NoMemory>
    ensures { OnOk result (map met_of met.new.items ≡ spec.meet_in (map met_of met.old.items) (step_of step.now)) }
{
    match step {
        Step::Basic(_) => return Ok(()),
        Step::Branch(_, first, second) => {
            meet_all(met, first)?;
            meet_all(met, second)?;
        }
        Step::While(_, _, premise)
        | Step::For(_, _, _, premise)
        | Step::Repeat(_, _, premise)
        | Step::Gather(_, _, premise)
        | Step::Pick(_, _, premise) => meet_all(met, premise)?,
    }
    meet(met, step)
}

// The compound steps among the steps are met.
#[cycle(meeting)]
fn meet_all<'a>(met: &mut Vec<Met<'a>>, steps: &'a Steps) -> Result<(), NoMemory>
    ensures { OnOk result (map met_of met.new.items ≡ spec.meet_all (map met_of met.old.items) steps.now) }
{
    for step in &steps.items {
        meet_in(met, step)?;
    }
    Ok(())
}

// The parts of the steps, in their order.
fn parts_of<'a>(alloc: Global, steps: &'a Steps) -> Result<Vec<&'a Step>, NoMemory>
    ensures { IfOk result (λ v. steps_at v.items ≡ spec.parts_of steps.now) }
{
    let mut met = Vec::new(alloc);
    meet_all(&mut met, steps)?;
    let mut parts = Vec::new(alloc);
    for found in &met {
        if found.again {
            parts.push(found.step)?;
        }
    }
    Ok(parts)
}

// The number of the part that the step is, if it is one of these.
fn number_of(parts: &[&Step], step: &Step) -> Option<u64>
    ensures { option_map part_name result ≡ name_of (steps_at parts.now) (step_of step.now) }
{
    if let Step::Basic(_) = step {
        return None;
    }
    find(parts, step)
}

fn find(parts: &[&Step], step: &Step) -> Option<u64>
    ensures { option_map part_name result ≡ name_from 1 (steps_at parts.now) (step_of step.now) }
{
    for i in 0..parts.len() {
        if same_step(parts[i], step) {
            return Some(i as u64 + 1);
        }
    }
    None
}

fn put_use(out: &mut Vec<u8>, number: u64) -> Result<(), NoMemory>
    ensures { OnOk result (out.new.items ≡ out.old.items ++ text_of_lines (use_line (part_name number) ∷ [])) }
{
    put(out, b"use p")?;
    put_number(out, number)?;
    put(out, b"\n")
}

// The lines of a premise, and the last line of its rule.
#[cycle(sharing)]
fn put_premise(out: &mut Vec<u8>, parts: &[&Step], premise: &Steps) -> Result<(), NoMemory>
    ensures { OnOk result (out.new.items ≡ out.old.items ++ text_of_lines (places_lines (shared (steps_at parts.now) premise.now) ++ close ∷ [])) }
{
    put_shared(out, parts, premise)?;
    put(out, b"close\n")
}

// The lines of a step itself, with the uses of parts in it.
#[cycle(sharing)]
fn put_opened(out: &mut Vec<u8>, parts: &[&Step], step: &Step) -> Result<(), NoMemory>
    ensures { OnOk result (out.new.items ≡ out.old.items ++ text_of_lines (place_lines (opened (steps_at parts.now) (step_of step.now)))) }
{
    put_first_line(out, step)?;
    match step {
        Step::Basic(_) => Ok(()),
        Step::Branch(_, first, second) => {
            put_shared(out, parts, first)?;
            put(out, b"else\n")?;
            put_shared(out, parts, second)?;
            put(out, b"join\n")
        }
        Step::While(_, _, premise) => put_premise(out, parts, premise),
        Step::For(_, _, _, premise) => put_premise(out, parts, premise),
        Step::Repeat(_, _, premise) => put_premise(out, parts, premise),
        Step::Gather(_, _, premise) => put_premise(out, parts, premise),
        Step::Pick(_, _, premise) => put_premise(out, parts, premise),
    }
}

// The use of the part that the step is, or its lines.
#[cycle(sharing)]
fn put_place(out: &mut Vec<u8>, parts: &[&Step], step: &Step) -> Result<(), NoMemory>
    ensures { OnOk result (out.new.items ≡ out.old.items ++ text_of_lines (place_lines (spec.used (name_of (steps_at parts.now) (step_of step.now)) (opened (steps_at parts.now) (step_of step.now))))) }
{
    match number_of(parts, step) {
        Some(number) => put_use(out, number),
        None => put_opened(out, parts, step),
    }
}

#[cycle(sharing)]
fn put_shared(out: &mut Vec<u8>, parts: &[&Step], steps: &Steps) -> Result<(), NoMemory>
    ensures { OnOk result (out.new.items ≡ out.old.items ++ text_of_lines (places_lines (shared (steps_at parts.now) steps.now))) }
{
    for step in &steps.items {
        put_place(out, parts, step)?;
    }
    Ok(())
}

fn put_part_name(out: &mut Vec<u8>, number: u64) -> Result<(), NoMemory>
    ensures { OnOk result (out.new.items ≡ out.old.items ++ text_of_lines (part_line (part_name number) ∷ [])) }
{
    put(out, b"part p")?;
    put_number(out, number)?;
    put(out, b"\n")
}

// The part behind those before it.
fn put_part(out: &mut Vec<u8>, before: &[&Step], step: &Step) -> Result<(), NoMemory>
    ensures { OnOk result (out.new.items ≡ out.old.items ++ text_of_lines (part_lines (part (steps_at before.now) (step_of step.now)))) }
{
    put_part_name(out, before.len() as u64 + 1)?;
    put_opened(out, before, step)?;
    put(out, b"endpart\n")
}

fn put_parts(out: &mut Vec<u8>, parts: &[&Step]) -> Result<(), NoMemory>
    ensures { OnOk result (out.new.items ≡ out.old.items ++ text_of_lines (parts_lines (written [] (steps_at parts.now)))) }
{
    for i in 0..parts.len() {
        put_part(out, &parts[..i], parts[i])?;
    }
    Ok(())
}

/// The text of a derivation in format 2.
#[tactic(auto, using(crate::proofs::Appended::texts_append))]
pub fn write2(alloc: Global, steps: &Steps) -> Result<Vec<u8>, NoMemory>
    ensures { IfOk result (λ text. text.items ≡ second_text steps.now) }
{
    let parts = parts_of(alloc, steps)?;
    let mut out = Vec::new(alloc);
    put(&mut out, b"brisk derivation 2\n")?;
    put_parts(&mut out, &parts)?;
    put_shared(&mut out, &parts, steps)?;
    put(&mut out, b"end\n")?;
    Ok(out)
}
