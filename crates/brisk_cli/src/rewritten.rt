//! What `rewrite` answers for a well-typed program.
ghost use Rattle.std.specs.Prelude.{◌≡◌, true};
ghost use Rattle.brisk_syntax.specs.Typing.{each_has_tag};
ghost use Rattle.brisk_syntax.specs.WellTyped.{IsProgramWellTyped, is_program_unbegun};
ghost use Rattle.brisk_cli.specs.Answers.{IfAnswer};
ghost use Rattle.brisk_cli.specs.Rewriting.{OfRewriting};

use crate::answer::{Answer, Stopped};
use crate::sequenced::sequenced;
use crate::status::Status;
use brisk_print::print_seq;
use brisk_syntax::Program;
use std::alloc::Global;

/// The sequential program of a program, or why it isn't rewritten.
pub fn rewritten(alloc: Global, program: &Program) -> Result<Answer, Stopped>
    requires typed { IsProgramWellTyped program.now }
    requires unbegun { is_program_unbegun program.now ≡ true }
    requires tagged { each_has_tag program.now.enums ≡ true }
    ensures { IfAnswer (OfRewriting program.now) result }
{
    let (_, sequential) = sequenced(alloc, program)?;
    Ok(Answer {
        status: Status::Done,
        text: print_seq(alloc, &sequential)?,
    })
}
