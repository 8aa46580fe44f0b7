//! Sources, read and typed.
ghost use Rattle.std.specs.Prelude.{◌≡◌, true, IfOk};
ghost use Rattle.brisk_syntax.specs.Typing.{each_has_tag};
ghost use Rattle.brisk_syntax.specs.WellTyped.{IsProgramWellTyped, is_program_unbegun};

use crate::fault::{MOST_BYTES, TextFault, at_byte};
use brisk_lex::tokens;
use brisk_parse::program;
use brisk_syntax::Program;
use brisk_types::check;
use std::alloc::Global;

/// The well-typed program that a source holds.
pub fn program_of(alloc: Global, source: &[u8]) -> Result<Program, TextFault>
    ensures typed { IfOk result (λ p. IsProgramWellTyped p) }
    ensures unbegun { IfOk result (λ p. is_program_unbegun p ≡ true) }
    ensures tagged { IfOk result (λ p. each_has_tag p.enums ≡ true) }
{
    if source.len() > MOST_BYTES {
        return Err(TextFault::TooLong);
    }
    let tokens = tokens(alloc, source)?;
    let program = program(alloc, &tokens)?;
    match check(alloc, &program) {
        Ok(()) => Ok(program),
        Err(fault) => Err(TextFault::Typing(at_byte(&tokens, fault))),
    }
}

/// The program that a source holds, whether it is well typed or not.
pub fn parsed_program(alloc: Global, source: &[u8]) -> Result<Program, TextFault> {
    if source.len() > MOST_BYTES {
        return Err(TextFault::TooLong);
    }
    let tokens = tokens(alloc, source)?;
    Ok(program(alloc, &tokens)?)
}
