//! The basic rules, and the tests that they make.
use brisk_values::{Name, NoMemory};
use thiserror::Error;

/// A basic rule. Of `Fill`, `Pass` and `Take` the first two names are those of the sender and the receiver, and the third
/// is that of the channel.
#[derive(Clone, Copy, Debug, PartialEq, Eq)]
pub enum Basic {
    Assign(Name),
    /// With the number of the box.
    Fill(Name, Name, Name, u32),
    Pass(Name, Name, Name),
    Take(Name, Name, Name),
    Known(Name),
}

/// The test of a rule that fails first.
#[derive(Clone, Copy, Debug, PartialEq, Eq, Error)]
pub enum RuleFault {
    #[error("no thread of this name can move")]
    NoThread,
    #[error("the rule is for another statement")]
    WrongHead,
    #[error("the box is in use, or there is none of this number")]
    BoxInUse,
    #[error("a message pends between the two on the channel")]
    AlreadyPending,
    #[error("no message pends between the two on the channel")]
    NothingPending,
    #[error("the guard isn't known")]
    NotKnown,
    #[error("out of memory")]
    NoMemory,
}

impl From<NoMemory> for RuleFault {
    ghost use Rattle.std.specs.Prelude.{◌≡◌};
    ghost use Rattle.brisk_basic.specs.declared.rule.RuleFault.TheVariants.{NoMemory as out_of_memory};

    ghost from_gives = { λ _ f. f ≡ out_of_memory };

    fn from(_: NoMemory) -> RuleFault {
        RuleFault::NoMemory
    }
}
