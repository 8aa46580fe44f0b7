//! Sequential texts, read and typed.
ghost use Rattle.std.specs.Prelude.{IfOk};
ghost use Rattle.brisk_seq.specs.WellTyped.{IsSeqWellTyped};

use crate::fault::{MOST_BYTES, TextFault, at_byte};
use brisk_lex::tokens;
use brisk_parse::sequential;
use brisk_seq::SeqProgram;
use brisk_types::check_seq;
use std::alloc::Global;

/// The well-typed sequential program that a text holds.
pub fn sequence_of(alloc: Global, text: &[u8]) -> Result<SeqProgram, TextFault>
    ensures { IfOk result (λ q. IsSeqWellTyped q) }
{
    if text.len() > MOST_BYTES {
        return Err(TextFault::TooLong);
    }
    let tokens = tokens(alloc, text)?;
    let program = sequential(alloc, &tokens)?;
    match check_seq(alloc, &program) {
        Ok(()) => Ok(program),
        Err(fault) => Err(TextFault::Typing(at_byte(&tokens, fault))),
    }
}

/// The sequential program that a text holds, whether it is well typed or not.
pub fn parsed_sequence(alloc: Global, text: &[u8]) -> Result<SeqProgram, TextFault> {
    if text.len() > MOST_BYTES {
        return Err(TextFault::TooLong);
    }
    let tokens = tokens(alloc, text)?;
    Ok(sequential(alloc, &tokens)?)
}
