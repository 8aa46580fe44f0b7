//! The verdict on a derivation's text.
use brisk_derivtext::DerivFault;
use brisk_loops::Why;
use brisk_values::NoMemory;
use thiserror::Error;

/// What a derivation's text is worth, for a program and the text of a sequential program.
#[derive(Clone, Copy, Debug, PartialEq, Eq)]
pub enum Verdict {
    /// The derivation is valid and has this sequential program.
    Valid,
    /// It isn't valid: the line in format 1 at which the first failure is told, and the test that fails.
    Invalid(u64, Why),
    /// It is valid and has another sequential program, whose text differs first at this byte, counted from 0.
    OtherProgram(u64),
}

/// Why there is no verdict.
#[derive(Clone, Copy, Debug, PartialEq, Eq, Error)]
pub enum CheckFault {
    /// The first line, counted from 1, with which the lines so far begin no derivation; one past the last line where
    /// the text ends too early.
    #[error("no derivation goes on with line {0}")]
    Deriv(u64),
    /// The first line, counted from 1, with which the lines of format 1 of a part, or of the main steps, have too many
    /// bytes.
    #[error("the steps are too large at line {0}")]
    TooLarge(u64),
    #[error("out of memory")]
    NoMemory,
}

impl From<NoMemory> for CheckFault {
    ghost use Rattle.std.specs.Prelude.{◌≡◌};
    ghost use Rattle.brisk_check.specs.declared.verdict.CheckFault.TheVariants.{NoMemory as out_of_memory};

    ghost from_gives = { λ _ f. f ≡ out_of_memory };

    fn from(_: NoMemory) -> CheckFault {
        CheckFault::NoMemory
    }
}

impl From<DerivFault> for CheckFault {
    ghost use Rattle.std.specs.Prelude.{◌≡◌};
    ghost use Rattle.brisk_check.specs.Told.{fault_of};

    ghost from_gives = { λ d f. f ≡ fault_of d };

    fn from(fault: DerivFault) -> CheckFault {
        match fault {
            DerivFault::Line(line) => CheckFault::Deriv(line),
            DerivFault::TooLarge(line) => CheckFault::TooLarge(line),
            DerivFault::NoMemory => CheckFault::NoMemory,
        }
    }
}
