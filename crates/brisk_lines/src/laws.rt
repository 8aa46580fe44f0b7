//! What holds of the definition of lines.
ghost use Rattle.brisk_lines.specs.Laws.{LinesAreCut, LinesDiffer};

/// Lines that differ have texts that differ, where they are legal.
pub fn lines()
    ensures { LinesDiffer }
{}

/// A text that begins with a line does so in one way.
pub fn lines_are_cut()
    ensures { LinesAreCut }
{}
