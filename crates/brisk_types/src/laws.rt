//! What the definitions say together.
ghost use Rattle.brisk_types.specs.Laws.{SequenceIsCounted, SpellingIsCounted};

/// A program's spelling has as many tokens as are counted.
pub fn counted()
    ensures { SpellingIsCounted }
{}

/// A sequential program's spelling has as many tokens as are counted.
pub fn seq_counted()
    ensures { SequenceIsCounted }
{}
