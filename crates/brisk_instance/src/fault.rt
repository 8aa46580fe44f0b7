//! Why an instance isn't started.
use brisk_values::NoMemory;
use thiserror::Error;

/// Why an instance isn't started.
#[derive(Clone, Copy, Debug, PartialEq, Eq, Error)]
pub enum StartFault {
    #[error("the instance doesn't fit the program")]
    BadInstance,
    #[error("the instance is too large")]
    TooLarge,
    #[error("out of memory")]
    NoMemory,
}

impl From<NoMemory> for StartFault {
    ghost use Rattle.std.specs.Prelude.{◌≡◌};
    ghost use Rattle.brisk_instance.specs.declared.fault.StartFault.TheVariants.{NoMemory as out_of_memory};

    ghost from_gives = { λ _ f. f ≡ out_of_memory };

    fn from(_: NoMemory) -> StartFault {
        StartFault::NoMemory
    }
}
