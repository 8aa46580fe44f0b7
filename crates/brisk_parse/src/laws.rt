//! What holds of the limits.
ghost use Rattle.brisk_parse.specs.Laws.{ProgramsPassNone, SequencesPassNone};

/// What is within the limits of `program` and `sequential` passes none of them at any token, and nothing else does so.
pub fn limits()
    ensures programs { ProgramsPassNone }
    ensures sequences { SequencesPassNone }
{}
