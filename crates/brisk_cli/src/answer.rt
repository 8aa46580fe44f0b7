//! What is answered, before it is written.
ghost use Rattle.std.specs.Prelude.{◌≡◌, IfOk};
ghost use Rattle.brisk_cli.specs.Lines as spec;

use crate::status::Status;
use brisk_values::NoMemory;
use std::alloc::Global;

/// A status, and the text that goes with it.
#[derive(Drop)]
pub struct Answer {
    pub status: Status,
    pub text: Vec<u8>,
}

impl Answer {
    /// The answer with this text.
    pub fn new(alloc: Global, status: Status, text: &[u8]) -> Result<Answer, NoMemory>
        ensures { IfOk result (λ a. (a.status ≡ status) × (a.text.items ≡ text.now)) }
    {
        Ok(Answer {
            status,
            text: Vec::from_slice(alloc, text)?,
        })
    }

    /// The answer with the line on a file.
    pub fn on_file(
        alloc: Global,
        status: Status,
        name: &str,
        what: &str,
    ) -> Result<Answer, NoMemory>
        ensures { IfOk result (λ a. (a.status ≡ status) × (a.text.items ≡ spec.file_line name.now what.now)) }
    {
        Ok(Answer {
            status,
            text: format!(in alloc; "file {name} {what}\n")?.into_bytes(),
        })
    }

    /// The answer with the line of a word and a number.
    pub fn counted(
        alloc: Global,
        status: Status,
        word: &str,
        number: u64,
    ) -> Result<Answer, NoMemory>
        ensures { IfOk result (λ a. (a.status ≡ status) × (a.text.items ≡ spec.counted word.now number)) }
    {
        Ok(Answer {
            status,
            text: format!(in alloc; "{word} {number}\n")?.into_bytes(),
        })
    }

    /// The answer with the line of a word, what is told of it, and a number.
    pub fn numbered(
        alloc: Global,
        status: Status,
        word: &str,
        what: &str,
        number: u64,
    ) -> Result<Answer, NoMemory>
        ensures { IfOk result (λ a. (a.status ≡ status) × (a.text.items ≡ spec.numbered word.now what.now number)) }
    {
        Ok(Answer {
            status,
            text: format!(in alloc; "{word} {what} {number}\n")?.into_bytes(),
        })
    }
}

/// Why there isn't what was wanted: something is answered instead, or memory ran out.
#[derive(Drop)]
pub enum Stopped {
    Told(Answer),
    NoMemory,
}

impl From<NoMemory> for Stopped {
    ghost use Rattle.std.specs.Prelude.{◌≡◌};
    ghost use Rattle.brisk_cli.specs.declared.answer.Stopped.TheVariants.{NoMemory as out_of_memory};

    ghost from_gives = { λ _ f. f ≡ out_of_memory };

    fn from(_: NoMemory) -> Stopped {
        Stopped::NoMemory
    }
}
