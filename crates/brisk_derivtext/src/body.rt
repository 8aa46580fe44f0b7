//! The steps that lines come to.
ghost use Rattle.std.specs.Prelude.{◌≡◌, ◌∷◌, ◌++◌, [], IfOk, reverse};
ghost use Rattle.brisk_derivation.specs.Seen.{step_of};
ghost use Rattle.brisk_derivation.specs.Steps.{no_steps as none, ◌▷◌};
ghost use Rattle.brisk_derivtext.specs.Kept.{body_of, Keeps};
ghost use Rattle.brisk_derivtext.specs.Reading as text;
ghost use Rattle.brisk_derivtext.specs.Reading.{◌then◌};

use crate::copies::no_steps;
use crate::line::{Line, Loop};
use crate::open::Open;
use crate::refusal::Refusal;
use brisk_derivation::{Step, Steps};
use brisk_values::NoMemory;
use std::alloc::Global;

const MOST_NESTED: usize = 1024;

/// The rules that are entered, the innermost last, and the steps so far in the innermost.
#[derive(Drop)]
pub struct Body {
    pub entered: Vec<Open>,
    pub steps: Steps,
}

/// Nothing was read.
pub fn empty(alloc: Global) -> Body
    ensures { body_of result ≡ text.empty }
{
    Body {
        entered: Vec::new(alloc),
        steps: no_steps(alloc),
    }
}

fn pushed(mut steps: Steps, step: Step) -> Result<Steps, NoMemory>
    ensures { IfOk result (λ a. a ≡ steps then (step_of step ▷ none)) }
{
    steps.items.push(step)?;
    Ok(steps)
}

// The step comes next.
fn add(entered: Vec<Open>, before: Steps, step: Step) -> Result<Body, NoMemory>
    ensures { IfOk result (λ b. body_of b ≡ text.add (record { entered = reverse entered.items; steps = before }) (step_of step)) }
{
    Ok(Body {
        entered,
        steps: pushed(before, step)?,
    })
}

fn with_rule(mut entered: Vec<Open>, rule: Open) -> Result<Vec<Open>, NoMemory>
    ensures { IfOk result (λ v. v.items ≡ entered.items ++ rule ∷ []) }
{
    entered.push(rule)?;
    Ok(entered)
}

// A rule is entered.
fn in_rule(alloc: Global, entered: Vec<Open>, rule: Open) -> Result<Body, Refusal>
    ensures { Keeps (text.in_rule (record { entered = reverse entered.items; steps = none }) rule) result }
{
    if entered.len() >= MOST_NESTED {
        return Err(Refusal::NoLine);
    }
    Ok(Body {
        entered: with_rule(entered, rule)?,
        steps: no_steps(alloc),
    })
}

// The second side of a branch comes next.
fn second_side(alloc: Global, mut entered: Vec<Open>, first: Steps) -> Result<Body, Refusal>
    ensures { Keeps (text.second_side (reverse entered.items) first) result }
{
    match entered.pop() {
        Some(Open::InFirst(before, t)) => Ok(Body {
            entered: with_rule(entered, Open::InSecond(before, t, first))?,
            steps: no_steps(alloc),
        }),
        _ => Err(Refusal::NoLine),
    }
}

// A branch ends.
fn joined(mut entered: Vec<Open>, second: Steps) -> Result<Body, Refusal>
    ensures { Keeps (text.joined (reverse entered.items) second) result }
{
    match entered.pop() {
        Some(Open::InSecond(before, t, first)) => {
            Ok(add(entered, before, Step::Branch(t, first, second))?)
        }
        _ => Err(Refusal::NoLine),
    }
}

/// The step of a rule with this premise.
pub fn around(rule: Loop, premise: Steps) -> Step
    ensures { step_of result ≡ text.around rule premise }
{
    match rule {
        Loop::While(t, drops) => Step::While(t, drops, premise),
        Loop::For(s, owners, drops) => Step::For(s, owners, drops, premise),
        Loop::Repeat(s, drops) => Step::Repeat(s, drops, premise),
        Loop::Gather(t, drops) => Step::Gather(t, drops, premise),
        Loop::Pick(t, drops) => Step::Pick(t, drops, premise),
    }
}

// A rule with one premise ends.
fn closed(mut entered: Vec<Open>, premise: Steps) -> Result<Body, Refusal>
    ensures { Keeps (text.closed (reverse entered.items) premise) result }
{
    match entered.pop() {
        Some(Open::InLoop(before, rule)) => Ok(add(entered, before, around(rule, premise))?),
        _ => Err(Refusal::NoLine),
    }
}

/// A line of steps is read.
pub fn put(alloc: Global, body: Body, line: Line) -> Result<Body, Refusal>
    ensures { Keeps (text.put line (body_of body)) result }
{
    match line {
        Line::Plain(step) => Ok(add(body.entered, body.steps, Step::Basic(step))?),
        Line::Fork(t) => in_rule(alloc, body.entered, Open::InFirst(body.steps, t)),
        Line::Enter(rule) => in_rule(alloc, body.entered, Open::InLoop(body.steps, rule)),
        Line::Else => second_side(alloc, body.entered, body.steps),
        Line::Join => joined(body.entered, body.steps),
        Line::Close => closed(body.entered, body.steps),
        _ => Err(Refusal::NoLine),
    }
}
