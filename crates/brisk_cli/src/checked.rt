//! What `check` answers for the texts of a sequential program and of a derivation.
ghost use Rattle.std.specs.Prelude.{IfOk};
ghost use Rattle.brisk_syntax.specs.WellTyped.{IsProgramWellTyped};
ghost use Rattle.brisk_cli.specs.Checks.{OfDerivation};

use crate::answer::Answer;
use crate::faults::derivation_answer;
use crate::invalid::invalid;
use crate::status::Status;
use brisk_check::{Verdict, check};
use brisk_syntax::Program;
use brisk_values::NoMemory;
use std::alloc::Global;

/// The verdict on the derivation that the text holds, or why it holds none.
pub fn checked(
    alloc: Global,
    program: &Program,
    sequential: &[u8],
    derivation: &[u8],
) -> Result<Answer, NoMemory>
    requires { IsProgramWellTyped program.now }
    ensures { IfOk result (λ a. OfDerivation program.now sequential.now derivation.now a.status a.text.items) }
{
    match check(alloc, program, sequential, derivation) {
        Ok(Verdict::Valid) => Answer::new(alloc, Status::Done, b"valid\n"),
        Ok(Verdict::Invalid(line, why)) => invalid(alloc, line, why),
        Ok(Verdict::OtherProgram(place)) => {
            Answer::counted(alloc, Status::Refused, "other program", place)
        }
        Err(fault) => derivation_answer(alloc, fault),
    }
}
