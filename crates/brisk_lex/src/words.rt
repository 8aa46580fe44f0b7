//! Reserved words.
ghost use Rattle.std.specs.Prelude.{◌≡◌, map};
ghost use Rattle.brisk_lex.specs.Vocabulary as spec;

use crate::token::Word;

const WORDS: [(&[u8], Word); 27] = [
    (b"enum", Word::KwEnum),
    (b"channel", Word::KwChannel),
    (b"one", Word::KwOne),
    (b"many", Word::KwMany),
    (b"nonempty", Word::KwNonempty),
    (b"var", Word::KwVar),
    (b"input", Word::KwInput),
    (b"int", Word::KwInt),
    (b"bool", Word::KwBool),
    (b"true", Word::KwTrue),
    (b"false", Word::KwFalse),
    (b"send", Word::KwSend),
    (b"to", Word::KwTo),
    (b"recv", Word::KwRecv),
    (b"from", Word::KwFrom),
    (b"any", Word::KwAny),
    (b"in", Word::KwIn),
    (b"if", Word::KwIf),
    (b"else", Word::KwElse),
    (b"while", Word::KwWhile),
    (b"for", Word::KwFor),
    (b"repeat", Word::KwRepeat),
    (b"begin", Word::KwBegin),
    (b"end", Word::KwEnd),
    (b"box", Word::KwBox),
    (b"pick", Word::KwPick),
    (b"loose", Word::KwLoose),
];

/// What the table has at this spelling.
fn find(table: &[(&[u8], Word)], bytes: &[u8]) -> Option<Word>
    ensures { result ≡ spec.find (map (λ e. (e.0.now, e.1)) table.now) bytes.now }
{
    for (spelling, word) in table {
        if *spelling == bytes {
            return Some(*word);
        }
    }
    None
}

/// The reserved word that is spelled so.
#[tactic(auto, unfolding(crate::specs::Vocabulary::word))]
pub fn word_of(bytes: &[u8]) -> Option<Word>
    ensures { result ≡ spec.word bytes.now }
{
    find(&WORDS, bytes)
}
