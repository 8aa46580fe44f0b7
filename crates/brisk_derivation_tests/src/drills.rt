//! The drills of all numbers, searched: each has its size, and the derivation that is found is accepted.
ghost use Rattle.std.specs.Prelude.{◌<◌, ◌≤◌};
ghost use Rattle.brisk_syntax.specs.WellTyped.{IsProgramWellTyped};

use brisk_derivation::{SideFault, Steps, count_steps};
use brisk_drill::drill_text;
use brisk_loops::{Why, accept};
use brisk_print::print_seq;
use brisk_search::{Outcome, search};
use brisk_seq::SeqProgram;
use brisk_syntax::{Program, statements};
use brisk_test_texts::program_of;
use std::alloc::Global;
use std::test::Fail;

// The budget with which a program is rewritten.
fn budget(program: &Program) -> u64 {
    statements(program)
        .saturating_mul(64)
        .saturating_add(20_000)
}

// The program and its derivation have the size of the drill of this number.
fn has_size(program: &Program, steps: &Steps, number: u32) -> bool {
    let number = u64::from(number);
    program.roles.items.len() as u64 == number + 3
        && statements(program) == 9 * number
        && count_steps(steps) == 6 * number
}

// The derivation is accepted with this sequential program.
fn is_accepted(
    alloc: Global,
    program: &Program,
    steps: &Steps,
    sequential: &SeqProgram,
) -> Result<bool, Fail>
    requires { IsProgramWellTyped program.now }
{
    let _fault: Option<SideFault> = None;
    let _why: Option<Why> = None;
    let accepted = accept(alloc, program, steps)?;
    let text = print_seq(alloc, &accepted)?;
    let found = print_seq(alloc, sequential)?;
    Ok(text == found)
}

// The search finds a derivation of the drill of this number, which has its size and is accepted.
fn is_sequenced(alloc: Global, number: u32) -> Result<bool, Fail>
    requires some { 0 < number }
    requires few { number ≤ 250 }
{
    let text = drill_text(alloc, number)?;
    let program = program_of(alloc, &text)?;
    match search(alloc, &program, budget(&program))? {
        Outcome::Sequenced(steps, sequential) => {
            if has_size(&program, &steps, number) {
                is_accepted(alloc, &program, &steps, &sequential)
            } else {
                Ok(false)
            }
        }
        Outcome::Stuck(_) | Outcome::Budget(_) => Ok(false),
    }
}

// The first of the 25 numbers from this one on whose drill isn't sequenced.
fn first_other(alloc: Global, from: u32) -> Result<Option<u32>, Fail>
    requires some { 0 < from }
    requires few { from ≤ 226 }
{
    for number in from..from + 25 {
        if !is_sequenced(alloc, number)? {
            return Ok(Some(number));
        }
    }
    Ok(None)
}

#[test]
fn drills_1_to_25_are_sequenced(rt: HostRuntime) -> Result<(), Fail> {
    assert_eq!(rt; first_other(rt.alloc(), 1)?, None);
    Ok(())
}

#[test]
fn drills_26_to_50_are_sequenced(rt: HostRuntime) -> Result<(), Fail> {
    assert_eq!(rt; first_other(rt.alloc(), 26)?, None);
    Ok(())
}

#[test]
fn drills_51_to_75_are_sequenced(rt: HostRuntime) -> Result<(), Fail> {
    assert_eq!(rt; first_other(rt.alloc(), 51)?, None);
    Ok(())
}

#[test]
fn drills_76_to_100_are_sequenced(rt: HostRuntime) -> Result<(), Fail> {
    assert_eq!(rt; first_other(rt.alloc(), 76)?, None);
    Ok(())
}

#[test]
fn drills_101_to_125_are_sequenced(rt: HostRuntime) -> Result<(), Fail> {
    assert_eq!(rt; first_other(rt.alloc(), 101)?, None);
    Ok(())
}

#[test]
fn drills_126_to_150_are_sequenced(rt: HostRuntime) -> Result<(), Fail> {
    assert_eq!(rt; first_other(rt.alloc(), 126)?, None);
    Ok(())
}

#[test]
fn drills_151_to_175_are_sequenced(rt: HostRuntime) -> Result<(), Fail> {
    assert_eq!(rt; first_other(rt.alloc(), 151)?, None);
    Ok(())
}

#[test]
fn drills_176_to_200_are_sequenced(rt: HostRuntime) -> Result<(), Fail> {
    assert_eq!(rt; first_other(rt.alloc(), 176)?, None);
    Ok(())
}

#[test]
fn drills_201_to_225_are_sequenced(rt: HostRuntime) -> Result<(), Fail> {
    assert_eq!(rt; first_other(rt.alloc(), 201)?, None);
    Ok(())
}

#[test]
fn drills_226_to_250_are_sequenced(rt: HostRuntime) -> Result<(), Fail> {
    assert_eq!(rt; first_other(rt.alloc(), 226)?, None);
    Ok(())
}
