//! The laws of the sequential programs of valid derivations as texts. The functions do nothing.

ghost use Rattle.brisk_written.specs.Laws.{SpellingsDetermine, ValidIsWritten};

/// Where a source holds the program, the sequential program of a valid derivation is levelled, and the tokens of its layout are
/// its spelling.
pub fn valid_is_written()
    ensures { ValidIsWritten }
{}

/// Two levelled sequential programs with one spelling are the same.
pub fn spellings_determine()
    ensures { SpellingsDetermine }
{}
