//! The first words of lines.
ghost use Rattle.std.specs.Prelude.{◌≡◌, map};
ghost use Rattle.brisk_derivtext.specs.Keywords.{keyword_text, word_in};
ghost use Rattle.brisk_lines.specs.Lines.{Reads};

/// What a line begins with.
#[derive(Clone, Copy, Debug, PartialEq, Eq)]
pub enum Keyword {
    Brisk,
    Assign,
    Fill,
    Pass,
    Take,
    Known,
    Branch,
    While,
    For,
    Repeat,
    Gather,
    Pick,
    Else,
    Join,
    Close,
    End,
    Part,
    EndPart,
    Use,
}

const KEYWORDS: [(&[u8], Keyword); 19] = [
    (b"brisk", Keyword::Brisk),
    (b"assign", Keyword::Assign),
    (b"fill", Keyword::Fill),
    (b"pass", Keyword::Pass),
    (b"take", Keyword::Take),
    (b"known", Keyword::Known),
    (b"branch", Keyword::Branch),
    (b"while", Keyword::While),
    (b"for", Keyword::For),
    (b"repeat", Keyword::Repeat),
    (b"gather", Keyword::Gather),
    (b"pick", Keyword::Pick),
    (b"else", Keyword::Else),
    (b"join", Keyword::Join),
    (b"close", Keyword::Close),
    (b"end", Keyword::End),
    (b"part", Keyword::Part),
    (b"endpart", Keyword::EndPart),
    (b"use", Keyword::Use),
];

/// What the table has at this word.
fn find(table: &[(&[u8], Keyword)], word: &[u8]) -> Option<Keyword>
    ensures { result ≡ word_in (map (λ e. (e.0.now, e.1)) table.now) word.now }
{
    for (spelling, keyword) in table {
        if *spelling == word {
            return Some(*keyword);
        }
    }
    None
}

/// The keyword that is spelled so.
#[tactic(auto, using(crate::proofs::Keywords::keywords_are_found))]
pub fn keyword_in(word: &[u8]) -> Option<Keyword>
    ensures { Reads keyword_text (λ _. Unit {0}) word.now result }
{
    find(&KEYWORDS, word)
}
