//! The failures with their places, and the typing rules without.
ghost use Rattle.brisk_types.specs.Agreement.{FailuresAreWithin, SeqFailuresAreWithin, SeqTypingAgrees, TypingAgrees};

/// No rule fails exactly where a program is well typed.
pub fn agreed()
    ensures { TypingAgrees }
{}

/// No rule fails exactly where a sequential program is well typed.
pub fn seq_agreed()
    ensures { SeqTypingAgrees }
{}

/// Each failure is at a token of the program.
pub fn within()
    ensures { FailuresAreWithin }
{}

/// Each failure is at a token of the sequential program.
pub fn seq_within()
    ensures { SeqFailuresAreWithin }
{}
