//! The run of a sequential program.
ghost use Rattle.std.specs.Prelude.{◌≡◌, IfOk, IfErr, Ok};
ghost use Rattle.brisk_values.specs.Places.{value_in};
ghost use Rattle.brisk_seq.specs.Answers.{Causes, HaltsWith};
ghost use Rattle.brisk_seq.specs.Running.{Tells, given_in, outcome};
ghost use Rattle.brisk_seq.specs.WellTyped.{IsSeqWellTyped};

use crate::boxes::Boxes;
use crate::evaluator::{Running, Setting};
use crate::fault::SeqFault;
use crate::tree::{Body, SeqProgram};
use brisk_instance::{StartFault, judge, start_store};
use brisk_values::{Instance, Store};
use std::alloc::Global;

impl From<StartFault> for SeqFault {
    ghost use Rattle.std.specs.Prelude.{◌≡◌};
    ghost use Rattle.brisk_seq.specs.Answers.{fault_of};

    ghost from_gives = { λ s f. f ≡ fault_of s };

    fn from(fault: StartFault) -> SeqFault {
        match fault {
            StartFault::BadInstance => SeqFault::BadInstance,
            StartFault::TooLarge => SeqFault::TooLarge,
            StartFault::NoMemory => SeqFault::NoMemory,
        }
    }
}

/// Does the items from this store.
pub fn evaluate(
    setting: &Setting<'_>,
    body: &Body,
    store: Store,
    turns: u64,
) -> Result<Store, SeqFault>
    ensures halts { IfOk result (λ s. outcome (given_in setting.now) body.now (value_in store) setting.now.choices.now turns ≡ Ok (value_in s)) }
    ensures stops { IfErr result (Tells (outcome (given_in setting.now) body.now (value_in store) setting.now.choices.now turns)) }
{
    let mut run = Running {
        store,
        boxes: Boxes::new(setting.alloc),
        asked: 0,
        turns,
        moves: 0,
    };
    let mut focus = Vec::new(setting.alloc);
    setting.items(&mut run, &mut focus, body)?;
    if run.asked < setting.choices.len() {
        return Err(SeqFault::ChoicesLeft);
    }
    Ok(run.store)
}

/// Runs a sequential program, and answers the store with which it halts, or what stops it first. Each choice names the
/// member of one turn of a `for any` or of a `pick`, in the order in which they come. At most so many turns of `while`
/// are taken over the whole run.
pub fn run(
    alloc: Global,
    program: &SeqProgram,
    instance: &Instance,
    choices: &[u32],
    turns: u64,
) -> Result<Store, SeqFault>
    requires { IsSeqWellTyped program.now }
    ensures ok { IfOk result (HaltsWith program.now instance.now choices.now turns) }
    ensures err { IfErr result (Causes program.now instance.now choices.now turns) }
{
    judge(alloc, &program.enums, &program.roles, instance)?;
    let store = start_store(alloc, &program.roles, instance)?;
    let setting = Setting {
        alloc,
        roles: &program.roles,
        sizes: &instance.sizes,
        choices,
    };
    evaluate(&setting, &program.body, store, turns)
}
