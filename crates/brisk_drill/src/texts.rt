//! Examples: the texts of drills.
ghost use Rattle.brisk_drill.specs.Examples.{DrillTexts};

/// The drills of 1 and 2. The function does nothing.
pub fn drill_texts()
    ensures { DrillTexts }
{}
