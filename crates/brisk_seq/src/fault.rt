//! Why a sequential program has no store.
ghost use Rattle.std.specs.Prelude.{◌≡◌};
ghost use Rattle.brisk_seq.specs.declared.fault.SeqFault.TheVariants.{NoMemory as OutOfMemory};

use brisk_values::NoMemory;
use std::alloc::{AllocError, AllocFailed};
use thiserror::Error;

/// What stops a run, or keeps it from beginning. The numbers count from 1.
#[derive(Clone, Copy, Debug, PartialEq, Eq, Error)]
pub enum SeqFault {
    #[error("the instance doesn't fit the program")]
    BadInstance,
    #[error("the instance is too large")]
    TooLarge,
    /// The choice that is missing, is no member, or was used before in its `for any`.
    #[error("choice {0} is missing or bad")]
    BadChoice(u64),
    #[error("choices are left")]
    ChoicesLeft,
    #[error("no turn of a while is left")]
    Turns,
    /// The pass, fill or take that fills a full box or takes what isn't in one. The number stays at the greatest.
    #[error("move {0} meets a full box or finds no fitting values")]
    BadBox(u64),
    #[error("out of memory")]
    NoMemory,
}

impl From<NoMemory> for SeqFault {
    ghost from_gives = { λ _ f. f ≡ OutOfMemory };

    fn from(_: NoMemory) -> SeqFault {
        SeqFault::NoMemory
    }
}

impl From<AllocError> for SeqFault {
    ghost from_gives = { λ _ f. f ≡ OutOfMemory };

    fn from(_: AllocError) -> SeqFault {
        SeqFault::NoMemory
    }
}

impl<T: Drop> From<AllocFailed<T>> for SeqFault {
    ghost from_gives = { λ _ f. f ≡ OutOfMemory };

    fn from(_: AllocFailed<T>) -> SeqFault {
        SeqFault::NoMemory
    }
}
