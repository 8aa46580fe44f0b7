//! Why a line is refused.
ghost use Rattle.std.specs.Prelude.{◌≡◌};
ghost use Rattle.brisk_derivtext.specs.Kept as kept;

use crate::fault::DerivFault;
use brisk_values::NoMemory;

/// Why a line can't stand.
#[derive(Clone, Copy, Debug, PartialEq, Eq)]
pub enum Refusal {
    /// No text goes on so.
    NoLine,
    /// The lines of format 1 have too many bytes with it.
    TooLong,
    NoMemory,
}

impl From<NoMemory> for Refusal {
    ghost use Rattle.std.specs.Prelude.{◌≡◌};
    ghost use Rattle.brisk_derivtext.specs.declared.refusal.Refusal.TheVariants.{NoMemory as out_of_memory};

    ghost from_gives = { λ _ f. f ≡ out_of_memory };

    fn from(_: NoMemory) -> Refusal {
        Refusal::NoMemory
    }
}

/// What a refusal at this line is told as.
pub fn fault_at(refusal: Refusal, number: u64) -> DerivFault
    ensures { result ≡ kept.fault_at refusal number }
{
    match refusal {
        Refusal::NoLine => DerivFault::Line(number),
        Refusal::TooLong => DerivFault::TooLarge(number),
        Refusal::NoMemory => DerivFault::NoMemory,
    }
}
