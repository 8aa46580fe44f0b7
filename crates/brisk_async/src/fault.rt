//! Why an event isn't taken.
use brisk_values::NoMemory;
use thiserror::Error;

/// Why an event isn't taken: the first of these tests that fails.
#[derive(Clone, Copy, Debug, PartialEq, Eq, Error)]
pub enum StepFault {
    #[error("the process isn't in the instance")]
    NoProcess,
    #[error("the process has nothing left to do")]
    Finished,
    #[error("a receive from any needs a sender")]
    NeedsSender,
    #[error("only a receive from any takes a sender")]
    TakesNoSender,
    #[error("the sender is no member of the set")]
    NoSuchSender,
    #[error("a receive on a loose channel needs a place")]
    NeedsPlace,
    #[error("only a receive on a loose channel takes a place")]
    TakesNoPlace,
    #[error("the queue is empty")]
    Blocked,
    #[error("the queue has no such place")]
    NoSuchPlace,
    #[error("out of memory")]
    NoMemory,
}

impl From<NoMemory> for StepFault {
    ghost use Rattle.std.specs.Prelude.{◌≡◌};
    ghost use Rattle.brisk_async.specs.declared.fault.StepFault.TheVariants.{NoMemory as out_of_memory};

    ghost from_gives = { λ _ f. f ≡ out_of_memory };

    fn from(_: NoMemory) -> StepFault {
        StepFault::NoMemory
    }
}
