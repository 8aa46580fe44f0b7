//! Why a derivation isn't accepted.
use brisk_rules::Why;
use brisk_values::NoMemory;
use thiserror::Error;

/// Why a derivation isn't accepted.
#[derive(Clone, Copy, Debug, PartialEq, Eq, Error)]
pub enum AcceptFault {
    /// With the line at which the first failure is told.
    #[error("the derivation is not valid")]
    Bad(u64, Why),
    #[error("out of memory")]
    NoMemory,
}

impl From<NoMemory> for AcceptFault {
    ghost use Rattle.std.specs.Prelude.{◌≡◌};
    ghost use Rattle.brisk_loops.specs.declared.fault.AcceptFault.TheVariants.{NoMemory as out_of_memory};

    ghost from_gives = { λ _ f. f ≡ out_of_memory };

    fn from(_: NoMemory) -> AcceptFault {
        AcceptFault::NoMemory
    }
}

/// Why a test fails, before its line is told.
#[derive(Clone, Copy, Debug, PartialEq, Eq)]
pub(crate) enum Refusal {
    Because(Why),
    NoMemory,
}

impl From<NoMemory> for Refusal {
    ghost use Rattle.std.specs.Prelude.{◌≡◌};
    ghost use Rattle.brisk_loops.specs.declared.fault.Refusal.TheVariants.{NoMemory as out_of_memory};

    ghost from_gives = { λ _ f. f ≡ out_of_memory };

    fn from(_: NoMemory) -> Refusal {
        Refusal::NoMemory
    }
}
