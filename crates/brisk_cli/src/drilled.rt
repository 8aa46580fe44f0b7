//! What `drill` answers.
ghost use Rattle.std.specs.Prelude.{◌≡◌, ◌<◌, ◌≤◌, ℕ, IfOk, IfSome, Option, length};
ghost use Rattle.brisk_io.specs.Causes.{Files};
ghost use Rattle.brisk_cli.specs.Answers.{IfAnswer, IsDue, IsDueFor, OfWords, Replies};
ghost use Rattle.brisk_cli.specs.Commands.{drill_number as spec_number, drill_of};
ghost use Rattle.brisk_cli.specs.Drills.{OfDrill, drill_line};

use crate::answer::{Answer, Stopped};
use crate::sequenced::sequenced;
use crate::source::source;
use crate::status::Status;
use brisk_derivation::count_steps;
use brisk_drill::drill_text;
use brisk_lines::number_in;
use brisk_syntax::{Program, statements};
use brisk_values::NoMemory;
use std::alloc::Global;

/// The greatest number of a drill.
const GREATEST: u64 = 250;

// The number of a drill, in decimal and without a leading zero.
fn drill_number(word: &str) -> Option<u32>
    ensures number { result ≡ spec_number word.now }
    ensures range { IfSome result (λ n. (0 < n) × (n ≤ 250)) }
{
    let number = number_in(word.as_bytes())?;
    if number == 0 || number > GREATEST {
        return None;
    }
    Some(number as u32)
}

fn roles(program: &Program) -> usize
    ensures { result ≡ length program.now.roles }
{
    program.roles.items.len()
}

fn summary(
    alloc: Global,
    number: u32,
    roles: usize,
    statements: u64,
    steps: u64,
) -> Result<Vec<u8>, NoMemory>
    ensures { IfOk result (λ v. v.items ≡ drill_line number roles statements steps) }
{
    Ok(format!(in alloc;
        "drill {number}: {roles} roles, {statements} statements, {steps} steps, valid\n"
    )?.into_bytes())
}

// The line of the drill whose derivation is found, or why there is none.
fn drilled(alloc: Global, number: u32) -> Result<Answer, Stopped>
    requires some { 0 < number }
    requires few { number ≤ 250 }
    ensures due { (misses misses' faults faults' : ℕ) → IfAnswer (λ status text. IsDue misses misses' faults faults' status) result }
    ensures told { IfAnswer (OfDrill number) result }
{
    let text = drill_text(alloc, number)?;
    let program = source(alloc, &text)?;
    let (steps, _) = sequenced(alloc, &program)?;
    let line = summary(
        alloc,
        number,
        roles(&program),
        statements(&program),
        count_steps(&steps),
    )?;
    Ok(Answer {
        status: Status::Done,
        text: line,
    })
}

/// What is answered for two words that name no file: the drill of a number from 1 to 250, or that they have no form.
#[tactic(auto, unfolding(crate::specs::Commands::drill_of))]
pub fn drill(alloc: Global, word: &str, number: &str) -> Result<Answer, Stopped>
    ensures due { (misses misses' faults faults' : ℕ) → IfAnswer (λ status text. IsDueFor (drill_of word.now number.now) misses misses' faults faults' status) result }
    ensures told { (files : Option Files) (faults faults' : ℕ) → IfSome files (λ f. IfAnswer (Replies faults faults' (OfWords (drill_of word.now number.now) f)) result) }
{
    if word == "drill" {
        if let Some(number) = drill_number(number) {
            return drilled(alloc, number);
        }
    }
    Ok(Answer::new(alloc, Status::Usage, b"usage\n")?)
}
