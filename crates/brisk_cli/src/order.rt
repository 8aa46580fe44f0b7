//! What `order` answers for the text of choices.
ghost use Rattle.std.specs.Prelude.{◌≡◌, ℕ, List, Result, IfOk};
ghost use Rattle.brisk_values.specs.Names.{Name};
ghost use Rattle.brisk_syntax.specs.Roles.{RoleText};
ghost use Rattle.brisk_syntax.specs.Stores.{Store};
ghost use Rattle.brisk_seq.specs.Running.{Tells};
ghost use Rattle.brisk_seq.specs.Sequential.{Stop};
ghost use Rattle.brisk_seq.specs.WellTyped.{IsSeqWellTyped};
ghost use Rattle.brisk_cli.specs.Answers.{IfAnswer};
ghost use Rattle.brisk_cli.specs.Orders.{OfChoices, OfEnd};

use crate::answer::{Answer, Stopped};
use crate::faults::schedule_answer;
use crate::status::Status;
use brisk_schedule::{Choices, print_store, read_choices};
use brisk_seq::{SeqFault, SeqProgram, run};
use brisk_values::NoMemory;
use std::alloc::Global;

// What is answered for what stops a run that could begin.
fn stop_answer(alloc: Global, fault: SeqFault) -> Result<Answer, NoMemory>
    requires fits { fault ≡ SeqFault.BadInstance → ⊥ }
    requires light { fault ≡ SeqFault.TooLarge → ⊥ }
    ensures { IfOk result (λ a. (sizes : Name → ℕ) (roles : List RoleText) (end : Result Store Stop) → Tells end fault → OfEnd sizes roles end a.status a.text.items) }
{
    let status = Status::Refused;
    match fault {
        SeqFault::BadChoice(k) => Answer::numbered(alloc, status, "refused", "BadChoice", k),
        SeqFault::ChoicesLeft => Answer::new(alloc, status, b"refused ChoicesLeft\n"),
        SeqFault::Turns => Answer::new(alloc, status, b"refused Turns\n"),
        SeqFault::BadBox(k) => Answer::numbered(alloc, status, "refused", "BadBox", k),
        SeqFault::NoMemory => Err(NoMemory),
        // the reader takes only instances that fit and aren't too large
        SeqFault::BadInstance | SeqFault::TooLarge => unreachable!(),
    }
}

fn picks(choices: &Choices) -> &[u32]
    ensures { result.now ≡ choices.now.picks }
{
    &choices.picks.items
}

/// How the sequential program ends on the choices that the text holds, or why it holds none.
pub fn run_choices(alloc: Global, program: &SeqProgram, text: &[u8]) -> Result<Answer, Stopped>
    requires { IsSeqWellTyped program.now }
    ensures { IfAnswer (OfChoices program.now text.now) result }
{
    let choices = match read_choices(alloc, program, text) {
        Ok(choices) => choices,
        Err(fault) => return Ok(schedule_answer(alloc, "choices", fault)?),
    };
    let instance = &choices.instance;
    match run(alloc, program, instance, picks(&choices), choices.turns) {
        Ok(store) => Ok(Answer {
            status: Status::Done,
            text: print_store(alloc, program, instance, &store)?,
        }),
        Err(fault) => Ok(stop_answer(alloc, fault)?),
    }
}
