//! Sources and sequential texts, judged.
ghost use Rattle.std.specs.Prelude.{◌≡◌, ◌≤◌, length, IfErr, IfOk, Ok};
ghost use Rattle.brisk_lex.specs.Tokens.{tokens as tokens_of};
ghost use Rattle.brisk_cli.specs.Answers.{IsTold, sequential_limit, source_limit};
ghost use Rattle.brisk_cli.specs.Languages.{Holds, IsCutWrong, IsFaulty, sequences, sources};

use crate::answer::Stopped;
use crate::faults::{lex_answer, parse_answer, type_answer};
use brisk_lex::{Placed, tokens};
use brisk_parse::{program, sequential};
use brisk_seq::SeqProgram;
use brisk_syntax::Program;
use brisk_types::{check, check_seq};
use std::alloc::Global;

// The tokens of a text. The word says what it is to be.
fn cut(alloc: Global, word: &str, bytes: &[u8]) -> Result<Vec<Placed>, Stopped>
    requires { length bytes.now ≤ sequential_limit }
    ensures cut { IfOk result (λ v. tokens_of bytes.now ≡ Ok v.items) }
    ensures few { IfOk result (λ v. length v.items ≤ length bytes.now) }
    ensures told { IfErr result (IsTold (IsCutWrong word.now (tokens_of bytes.now))) }
{
    match tokens(alloc, bytes) {
        Ok(tokens) => Ok(tokens),
        Err(fault) => Err(Stopped::Told(lex_answer(alloc, word, fault)?)),
    }
}

/// The well-typed program that a source holds.
pub fn source(alloc: Global, bytes: &[u8]) -> Result<Program, Stopped>
    requires { length bytes.now ≤ source_limit }
    ensures holds { IfOk result (Holds sources bytes.now) }
    ensures told { IfErr result (IsTold (IsFaulty sources bytes.now)) }
{
    let word = "source";
    let tokens = cut(alloc, word, bytes)?;
    let program = match program(alloc, &tokens) {
        Ok(program) => program,
        Err(fault) => {
            let answer = parse_answer(alloc, word, &tokens, bytes.len(), fault)?;
            return Err(Stopped::Told(answer));
        }
    };
    match check(alloc, &program) {
        Ok(()) => Ok(program),
        Err(fault) => {
            let answer = type_answer(alloc, word, &tokens, bytes.len(), fault)?;
            Err(Stopped::Told(answer))
        }
    }
}

/// The well-typed sequential program that a sequential text holds.
pub fn sequence(alloc: Global, bytes: &[u8]) -> Result<SeqProgram, Stopped>
    requires { length bytes.now ≤ sequential_limit }
    ensures holds { IfOk result (Holds sequences bytes.now) }
    ensures told { IfErr result (IsTold (IsFaulty sequences bytes.now)) }
{
    let word = "sequential";
    let tokens = cut(alloc, word, bytes)?;
    let program = match sequential(alloc, &tokens) {
        Ok(program) => program,
        Err(fault) => {
            let answer = parse_answer(alloc, word, &tokens, bytes.len(), fault)?;
            return Err(Stopped::Told(answer));
        }
    };
    match check_seq(alloc, &program) {
        Ok(()) => Ok(program),
        Err(fault) => {
            let answer = type_answer(alloc, word, &tokens, bytes.len(), fault)?;
            Err(Stopped::Told(answer))
        }
    }
}
