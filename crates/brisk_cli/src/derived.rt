//! What `derive` answers for a well-typed program.
ghost use Rattle.std.specs.Prelude.{◌≡◌, true};
ghost use Rattle.brisk_syntax.specs.Typing.{each_has_tag};
ghost use Rattle.brisk_syntax.specs.WellTyped.{IsProgramWellTyped, is_program_unbegun};
ghost use Rattle.brisk_cli.specs.Answers.{IfAnswer};
ghost use Rattle.brisk_cli.specs.Rewriting.{OfDeriving};

use crate::answer::{Answer, Stopped};
use crate::sequenced::sequenced;
use crate::status::Status;
use brisk_derivtext::write;
use brisk_syntax::Program;
use std::alloc::Global;

/// The text of a derivation of a program, or why there is none.
pub fn derived(alloc: Global, program: &Program) -> Result<Answer, Stopped>
    requires typed { IsProgramWellTyped program.now }
    requires unbegun { is_program_unbegun program.now ≡ true }
    requires tagged { each_has_tag program.now.enums ≡ true }
    ensures { IfAnswer (OfDeriving program.now) result }
{
    let (steps, _) = sequenced(alloc, program)?;
    Ok(Answer {
        status: Status::Done,
        text: write(alloc, &steps)?,
    })
}
