//! The answers for faults of texts.
ghost use Rattle.std.specs.Prelude.{◌≡◌, IfOk, Some};
ghost use Rattle.brisk_cli.specs.Lines.{byte_of, derivation_line, lex_line, numbered, parse_line, schedule_line, type_line};

use crate::answer::Answer;
use crate::status::Status;
use brisk_check::CheckFault;
use brisk_lex::{LexFault, Placed};
use brisk_parse::ParseFault;
use brisk_schedule::ScheduleFault;
use brisk_types::TypeFault;
use brisk_values::NoMemory;
use std::alloc::Global;

// The answer for a text that is at fault.
fn bad(alloc: Global, word: &str, what: &str, number: u64) -> Result<Answer, NoMemory>
    ensures { IfOk result (λ a. (a.status ≡ Status.BadInput) × (a.text.items ≡ numbered word.now what.now number)) }
{
    Answer::numbered(alloc, Status::BadInput, word, what, number)
}

/// What is answered for a text that has no tokens. The word says what the text was to be.
pub fn lex_answer(alloc: Global, word: &str, fault: LexFault) -> Result<Answer, NoMemory>
    ensures { IfOk result (λ a. (a.status ≡ Status.BadInput) × (lex_line word.now fault ≡ Some a.text.items)) }
{
    match fault {
        LexFault::NotUtf8(at) => bad(alloc, word, "NotUtf8", u64::from(at)),
        LexFault::BadChar(at) => bad(alloc, word, "BadChar", u64::from(at)),
        LexFault::NumberTooLarge(at) => bad(alloc, word, "NumberTooLarge", u64::from(at)),
        LexFault::NameTooLong(at) => bad(alloc, word, "NameTooLong", u64::from(at)),
        LexFault::NoMemory => Err(NoMemory),
    }
}

// The byte where a token begins, or the end of the text.
fn byte_at(tokens: &[Placed], end: usize, index: u32) -> u64
    ensures { result ≡ byte_of tokens.now end index }
{
    match tokens.get(index as usize) {
        Some(token) => u64::from(token.at),
        None => end as u64,
    }
}

/// What is answered for a text that the grammar doesn't read.
pub fn parse_answer(
    alloc: Global,
    word: &str,
    tokens: &[Placed],
    end: usize,
    fault: ParseFault,
) -> Result<Answer, NoMemory>
    ensures { IfOk result (λ a. (a.status ≡ Status.BadInput) × (parse_line word.now tokens.now end fault ≡ Some a.text.items)) }
{
    match fault {
        ParseFault::SyntaxFault(k) => bad(alloc, word, "SyntaxFault", byte_at(tokens, end, k)),
        ParseFault::TooDeep(k) => bad(alloc, word, "TooDeep", byte_at(tokens, end, k)),
        ParseFault::TooMany(k) => bad(alloc, word, "TooMany", byte_at(tokens, end, k)),
        ParseFault::NoMemory => Err(NoMemory),
    }
}

/// What is answered for a text that isn't well typed.
pub fn type_answer(
    alloc: Global,
    word: &str,
    tokens: &[Placed],
    end: usize,
    fault: TypeFault,
) -> Result<Answer, NoMemory>
    ensures { IfOk result (λ a. (a.status ≡ Status.BadInput) × (type_line word.now tokens.now end fault ≡ Some a.text.items)) }
{
    match fault {
        TypeFault::Unknown(k) => bad(alloc, word, "Unknown", byte_at(tokens, end, k)),
        TypeFault::Twice(k) => bad(alloc, word, "Twice", byte_at(tokens, end, k)),
        TypeFault::NotASet(k) => bad(alloc, word, "NotASet", byte_at(tokens, end, k)),
        TypeFault::NotSingle(k) => bad(alloc, word, "NotSingle", byte_at(tokens, end, k)),
        TypeFault::SelfPartner(k) => bad(alloc, word, "SelfPartner", byte_at(tokens, end, k)),
        TypeFault::WrongCount(k) => bad(alloc, word, "WrongCount", byte_at(tokens, end, k)),
        TypeFault::WrongKind(k) => bad(alloc, word, "WrongKind", byte_at(tokens, end, k)),
        TypeFault::NoMemory => Err(NoMemory),
    }
}

/// What is answered for a bad text of a schedule or of choices.
pub fn schedule_answer(alloc: Global, word: &str, fault: ScheduleFault) -> Result<Answer, NoMemory>
    ensures { IfOk result (λ a. (a.status ≡ Status.BadInput) × (schedule_line word.now fault ≡ Some a.text.items)) }
{
    match fault {
        ScheduleFault::Text(line) => bad(alloc, word, "Text", line),
        ScheduleFault::Misfit(line) => bad(alloc, word, "Misfit", line),
        ScheduleFault::TooLarge(line) => bad(alloc, word, "TooLarge", line),
        ScheduleFault::NoMemory => Err(NoMemory),
    }
}

/// What is answered for a bad text of a derivation.
pub fn derivation_answer(alloc: Global, fault: CheckFault) -> Result<Answer, NoMemory>
    ensures { IfOk result (λ a. (a.status ≡ Status.BadInput) × (derivation_line fault ≡ Some a.text.items)) }
{
    match fault {
        CheckFault::Deriv(line) => bad(alloc, "derivation", "Line", line),
        CheckFault::TooLarge(line) => bad(alloc, "derivation", "TooLarge", line),
        CheckFault::NoMemory => Err(NoMemory),
    }
}
