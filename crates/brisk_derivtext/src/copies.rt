//! Copies of lines and of steps, and how deep steps nest.
ghost use Rattle.std.specs.Prelude.{◌≡◌, ◌-◌, ◌^◌, min, IfOk};
ghost use Rattle.brisk_derivation.specs.Depths.{step_depth, steps_depth};
ghost use Rattle.brisk_derivation.specs.Seen.{step_of};
ghost use Rattle.brisk_derivation.specs.Steps.{no_steps as none};
ghost use Rattle.brisk_derivtext.specs.Reading.{◌then◌};

use crate::line::{Line, Loop};
use brisk_derivation::{Drops, Step, Steps};
use brisk_syntax::copy_names;
use brisk_values::NoMemory;
use std::alloc::Global;

/// Nothing.
pub fn no_steps(alloc: Global) -> Steps
    ensures { result ≡ none }
{
    Steps {
        items: Vec::new(alloc),
    }
}

fn copy_drops(alloc: Global, drops: &Drops) -> Result<Drops, NoMemory>
    ensures { IfOk result (λ d. d ≡ drops.now) }
{
    Ok(Drops {
        items: Vec::from_slice(alloc, &drops.items)?,
    })
}

// The same rule.
fn copy_loop(alloc: Global, rule: &Loop) -> Result<Loop, NoMemory>
    ensures { IfOk result (λ r. r ≡ rule.now) }
{
    match rule {
        Loop::While(t, drops) => Ok(Loop::While(*t, copy_drops(alloc, drops)?)),
        Loop::For(s, owners, drops) => Ok(Loop::For(
            *s,
            copy_names(alloc, owners)?,
            copy_drops(alloc, drops)?,
        )),
        Loop::Repeat(s, drops) => Ok(Loop::Repeat(*s, copy_drops(alloc, drops)?)),
        Loop::Gather(t, drops) => Ok(Loop::Gather(*t, copy_drops(alloc, drops)?)),
        Loop::Pick(t, drops) => Ok(Loop::Pick(*t, copy_drops(alloc, drops)?)),
    }
}

/// The same line.
pub fn copy_line(alloc: Global, line: &Line) -> Result<Line, NoMemory>
    ensures { IfOk result (λ l. l ≡ line.now) }
{
    match line {
        Line::Head(format) => Ok(Line::Head(*format)),
        Line::Plain(step) => Ok(Line::Plain(*step)),
        Line::Fork(t) => Ok(Line::Fork(*t)),
        Line::Enter(rule) => Ok(Line::Enter(copy_loop(alloc, rule)?)),
        Line::Else => Ok(Line::Else),
        Line::Join => Ok(Line::Join),
        Line::Close => Ok(Line::Close),
        Line::End => Ok(Line::End),
        Line::Part(name) => Ok(Line::Part(*name)),
        Line::EndPart => Ok(Line::EndPart),
        Line::Use(name) => Ok(Line::Use(*name)),
    }
}

// The same step.
#[cycle(copying)]
fn copy_step(alloc: Global, step: &Step) -> Result<Step, NoMemory>
    ensures { IfOk result (λ s. step_of s ≡ step_of step.now) }
{
    match step {
        Step::Basic(rule) => Ok(Step::Basic(*rule)),
        Step::Branch(t, first, second) => Ok(Step::Branch(
            *t,
            copy_steps(alloc, first)?,
            copy_steps(alloc, second)?,
        )),
        Step::While(t, drops, premise) => Ok(Step::While(
            *t,
            copy_drops(alloc, drops)?,
            copy_steps(alloc, premise)?,
        )),
        Step::For(s, owners, drops, premise) => Ok(Step::For(
            *s,
            copy_names(alloc, owners)?,
            copy_drops(alloc, drops)?,
            copy_steps(alloc, premise)?,
        )),
        Step::Repeat(s, drops, premise) => Ok(Step::Repeat(
            *s,
            copy_drops(alloc, drops)?,
            copy_steps(alloc, premise)?,
        )),
        Step::Gather(t, drops, premise) => Ok(Step::Gather(
            *t,
            copy_drops(alloc, drops)?,
            copy_steps(alloc, premise)?,
        )),
        Step::Pick(t, drops, premise) => Ok(Step::Pick(
            *t,
            copy_drops(alloc, drops)?,
            copy_steps(alloc, premise)?,
        )),
    }
}

// The same steps.
#[cycle(copying)]
fn copy_steps(alloc: Global, steps: &Steps) -> Result<Steps, NoMemory>
    ensures { IfOk result (λ a. a ≡ steps.now) }
{
    let mut items = Vec::new(alloc);
    for step in &steps.items {
        items.push(copy_step(alloc, step)?)?;
    }
    Ok(Steps { items })
}

/// The steps, and a copy of others behind them.
pub fn then(alloc: Global, mut steps: Steps, more: &Steps) -> Result<Steps, NoMemory>
    ensures { IfOk result (λ a. a ≡ steps then more.now) }
{
    for step in &more.items {
        steps.items.push(copy_step(alloc, step)?)?;
    }
    Ok(steps)
}

/// How deep the steps nest; it stays at the greatest `u64` where it would pass it.
#[cycle(nesting)]
pub fn depth_of(steps: &Steps) -> u64
    ensures { result ≡ min (steps_depth steps.now) (2 ^ 64 - 1) }
{
    let mut deepest = 0u64;
    for step in &steps.items {
        deepest = deepest.max(depth_in(step));
    }
    deepest
}

#[cycle(nesting)]
fn depth_in(step: &Step) -> u64
    ensures { result ≡ min (step_depth (step_of step.now)) (2 ^ 64 - 1) }
{
    match step {
        Step::Basic(_) => 0,
        Step::Branch(_, first, second) => {
            depth_of(first).max(depth_of(second)).saturating_add(1)
        }
        Step::While(_, _, premise)
        | Step::For(_, _, _, premise)
        | Step::Repeat(_, _, premise)
        | Step::Gather(_, _, premise)
        | Step::Pick(_, _, premise) => depth_of(premise).saturating_add(1),
    }
}
