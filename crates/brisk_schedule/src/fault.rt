//! Why a text is no schedule, or no choices.
use brisk_values::NoMemory;
use std::alloc::AllocFailed;
use thiserror::Error;

/// The first line at which a text fails, counted from 1.
#[derive(Clone, Copy, Debug, PartialEq, Eq, Error)]
pub enum ScheduleFault {
    /// The line has none of the text's forms, or isn't ended, or stands behind the end, or is missing.
    #[error("line {0} has no form of this text")]
    Text(u64),
    /// The instance needs another line there.
    #[error("line {0} isn't the one that is needed there")]
    Misfit(u64),
    /// With this line, the last of a size, the instance is too heavy.
    #[error("with line {0} the instance is too large")]
    TooLarge(u64),
    #[error("out of memory")]
    NoMemory,
}

impl From<NoMemory> for ScheduleFault {
    ghost use Rattle.std.specs.Prelude.{◌≡◌};
    ghost use Rattle.brisk_schedule.specs.declared.fault.ScheduleFault.TheVariants.{NoMemory as out_of_memory};

    ghost from_gives = { λ _ f. f ≡ out_of_memory };

    fn from(_: NoMemory) -> ScheduleFault {
        ScheduleFault::NoMemory
    }
}

impl<T: Drop> From<AllocFailed<T>> for ScheduleFault {
    ghost use Rattle.std.specs.Prelude.{◌≡◌};
    ghost use Rattle.brisk_schedule.specs.declared.fault.ScheduleFault.TheVariants.{NoMemory as out_of_memory};

    ghost from_gives = { λ _ f. f ≡ out_of_memory };

    fn from(_: AllocFailed<T>) -> ScheduleFault {
        ScheduleFault::NoMemory
    }
}
