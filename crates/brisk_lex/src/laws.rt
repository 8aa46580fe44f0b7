//! What holds of the definition of tokens.
ghost use Rattle.brisk_lex.specs.Longest.{LongestIsCut, SpellingsAreTexts};

/// What is cut off at each place of a text is the longest front there that is a token. Where none is cut off, no
/// front is one, or the longest is a number or a name past its limit.
pub fn longest()
    ensures cut { LongestIsCut }
    ensures spelled { SpellingsAreTexts }
{}
