//! What holds of derivation texts. The functions do nothing.
ghost use Rattle.brisk_derivtext.specs.Laws.{BeginningsStand, FailsOnce, GrammarIsRead, LinesAreCut, LinesAreFound, LinesBegin, LinesDiffer, ReadIsGrammar, ReadIsWritten, ReadOnce, ReadStands, SecondIsRead, TextsDiffer, WrittenIsRead};
ghost use Rattle.brisk_derivtext.specs.Lined.{LinesAreTheText};

/// Lines that differ have texts that differ, where they are legal.
pub fn lines_differ()
    ensures { LinesDiffer }
{}

/// A text that begins with a line does so in one way.
pub fn lines_are_cut()
    ensures { LinesAreCut }
{}

/// A text fails at one line alone, in one way.
pub fn fails_once()
    ensures { FailsOnce }
{}

/// A text is read in one format alone, as one derivation.
pub fn read_once()
    ensures { ReadOnce }
{}

/// A text that is read fails at no line.
pub fn read_stands()
    ensures { ReadStands }
{}

/// What is written is read back, as the same derivation.
pub fn written_is_read()
    ensures { WrittenIsRead }
{}

/// What is read in format 1 is the text of the derivation.
pub fn read_is_written()
    ensures { ReadIsWritten }
{}

/// Two derivations with one text are the same.
pub fn texts_differ()
    ensures { TextsDiffer }
{}

/// Lines of format 1 that can stand begin the text of a derivation, the bound on bytes left aside.
pub fn lines_begin()
    ensures { LinesBegin }
{}

/// Lines that begin the text of a derivation can stand.
pub fn beginnings_stand()
    ensures { BeginningsStand }
{}

/// The line with some bytes is found where there is one, and no other.
pub fn lines_are_found()
    ensures { LinesAreFound }
{}

/// A text of format 2 by its grammar is read as its steps.
pub fn grammar_is_read()
    ensures { GrammarIsRead }
{}

/// What is read in format 2 is a text by its grammar.
pub fn read_is_grammar()
    ensures { ReadIsGrammar }
{}

/// What is written in format 2 is read back, as the same derivation.
pub fn second_is_read()
    ensures { SecondIsRead }
{}

/// To read the lines of a text one by one is to read the text.
pub fn lines_are_the_text()
    ensures { LinesAreTheText }
{}
