//! Why a text has no tokens.
ghost use Rattle.std.specs.Prelude.{◌≡◌};
ghost use Rattle.brisk_lex.specs.declared.fault.LexFault.TheVariants.{NoMemory};
ghost use Rattle.brisk_lex.specs.Tokens as spec;

use std::alloc::{AllocError, AllocFailed};
use thiserror::Error;

/// Why a text has no tokens, each with the byte.
#[derive(Clone, Copy, Debug, PartialEq, Eq, Error)]
pub enum LexFault {
    #[error("not UTF-8 at byte {0}")]
    NotUtf8(u32),
    #[error("no token begins at byte {0}")]
    BadChar(u32),
    #[error("the number at byte {0} is too large")]
    NumberTooLarge(u32),
    #[error("the name at byte {0} is too long")]
    NameTooLong(u32),
    #[error("out of memory")]
    NoMemory,
}

impl From<AllocError> for LexFault {
    ghost from_gives = { λ _ e. e ≡ NoMemory };

    fn from(_: AllocError) -> LexFault {
        LexFault::NoMemory
    }
}

impl<T: Drop> From<AllocFailed<T>> for LexFault {
    ghost from_gives = { λ _ e. e ≡ NoMemory };

    fn from(_: AllocFailed<T>) -> LexFault {
        LexFault::NoMemory
    }
}

/// What is wrong where no token can be cut off.
#[derive(Clone, Copy)]
pub enum Wrong {
    BadChar,
    NumberTooLarge,
    NameTooLong,
}

impl Wrong {
    /// The fault at this byte.
    pub fn at(self, at: u32) -> LexFault
        ensures { result ≡ spec.fault_at self at }
    {
        match self {
            Wrong::BadChar => LexFault::BadChar(at),
            Wrong::NumberTooLarge => LexFault::NumberTooLarge(at),
            Wrong::NameTooLong => LexFault::NameTooLong(at),
        }
    }
}
