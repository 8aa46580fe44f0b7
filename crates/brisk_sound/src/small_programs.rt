//! Examples: what the definitions give on small programs.
ghost use Rattle.brisk_sound.specs.Derivations.{Derivations};
ghost use Rattle.brisk_sound.specs.Examples.{Examples};
ghost use Rattle.brisk_sound.specs.ReportExamples.{ReportExamples};

/// What the machine and the sequential runs give on small programs. The function does nothing.
pub fn examples()
    ensures { Examples }
{}

/// Which derivations of small programs are valid, and how tampered ones fail. The function does nothing.
pub fn derivations()
    ensures { Derivations }
{}

/// Which reports of small programs hold, and which don't. The function does nothing.
pub fn reports()
    ensures { ReportExamples }
{}
