//! Why a derivation isn't unfolded.
ghost use Rattle.std.specs.Prelude.{◌≡◌};

use brisk_seq::SeqFault;
use thiserror::Error;

/// Why a derivation isn't unfolded.
#[derive(Clone, Copy, Debug, PartialEq, Eq, Error)]
pub enum UnfoldFault {
    /// What stops the sequential program, or keeps it from beginning; it is never want of memory.
    #[error("the sequential program has no store")]
    Seq(SeqFault),
    #[error("out of memory")]
    NoMemory,
}

impl From<SeqFault> for UnfoldFault {
    ghost use Rattle.brisk_unfold.specs.Answers.{fault_of};

    ghost from_gives = { λ s f. f ≡ fault_of s };

    fn from(fault: SeqFault) -> UnfoldFault {
        match fault {
            SeqFault::NoMemory => UnfoldFault::NoMemory,
            other => UnfoldFault::Seq(other),
        }
    }
}
