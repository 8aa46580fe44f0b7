//! Why tokens are no program.
ghost use Rattle.std.specs.Prelude.{◌≡◌};
ghost use Rattle.brisk_parse.specs.Answers.{fault_at};
ghost use Rattle.brisk_parse.specs.declared.fault.Stop.TheVariants.{NoMemory as OutOfMemory};

use brisk_values::NoMemory;
use std::alloc::{AllocError, AllocFailed};
use thiserror::Error;

/// Why the tokens are no program, each with the index of the token, which is the number of tokens at the end.
#[derive(Clone, Copy, Debug, PartialEq, Eq, Error)]
pub enum ParseFault {
    #[error("no program goes on with token {0}")]
    SyntaxFault(u32),
    #[error("the block at token {0} is nested too deep")]
    TooDeep(u32),
    #[error("token {0} is one too many")]
    TooMany(u32),
    #[error("out of memory")]
    NoMemory,
}

/// Why reading stops, each with the number of tokens that are left, the one at fault counted.
#[derive(Clone, Copy, PartialEq, Eq)]
pub enum Stop {
    Syntax(u32),
    TooDeep(u32),
    TooMany(u32),
    NoMemory,
}

impl Stop {
    /// The fault, where there are so many tokens in all.
    pub fn fault(self, total: u32) -> ParseFault
        ensures { result ≡ fault_at total self }
    {
        match self {
            Stop::Syntax(left) => ParseFault::SyntaxFault(total.saturating_sub(left)),
            Stop::TooDeep(left) => ParseFault::TooDeep(total.saturating_sub(left)),
            Stop::TooMany(left) => ParseFault::TooMany(total.saturating_sub(left)),
            Stop::NoMemory => ParseFault::NoMemory,
        }
    }
}

impl From<NoMemory> for Stop {
    ghost from_gives = { λ _ e. e ≡ OutOfMemory };

    fn from(_: NoMemory) -> Stop {
        Stop::NoMemory
    }
}

impl From<AllocError> for Stop {
    ghost from_gives = { λ _ e. e ≡ OutOfMemory };

    fn from(_: AllocError) -> Stop {
        Stop::NoMemory
    }
}

impl<T: Drop> From<AllocFailed<T>> for Stop {
    ghost from_gives = { λ _ e. e ≡ OutOfMemory };

    fn from(_: AllocFailed<T>) -> Stop {
        Stop::NoMemory
    }
}
