//! Why a text is no derivation.
use brisk_values::NoMemory;
use thiserror::Error;

/// Why there are no steps, where a derivation's text is read.
#[derive(Clone, Copy, Debug, PartialEq, Eq, Error)]
pub enum DerivFault {
    /// The first line, counted from 1, with which the lines so far begin no derivation; one past the last line where
    /// the text ends too early.
    #[error("no derivation goes on with line {0}")]
    Line(u64),
    /// The first line, counted from 1, with which the lines of format 1 of a part, or of the main steps, have too many
    /// bytes.
    #[error("the steps are too large at line {0}")]
    TooLarge(u64),
    #[error("out of memory")]
    NoMemory,
}

impl From<NoMemory> for DerivFault {
    ghost use Rattle.std.specs.Prelude.{◌≡◌};
    ghost use Rattle.brisk_derivtext.specs.declared.fault.DerivFault.TheVariants.{NoMemory as out_of_memory};

    ghost from_gives = { λ _ f. f ≡ out_of_memory };

    fn from(_: NoMemory) -> DerivFault {
        DerivFault::NoMemory
    }
}
