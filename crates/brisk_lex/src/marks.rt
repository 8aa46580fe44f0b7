//! Marks: tokens of one or two characters that are no letters.
ghost use Rattle.std.specs.Prelude.{◌≡◌};
ghost use Rattle.brisk_lex.specs.Vocabulary as spec;

use crate::token::Mark;

/// The mark of these two characters.
#[tactic(auto, unfolding(crate::specs::Vocabulary::double_mark))]
pub fn double_mark(first: char, second: char) -> Option<Mark>
    ensures { result ≡ spec.double_mark first second }
{
    match (first, second) {
        (':', '=') => Some(Mark::Assign),
        ('=', '=') => Some(Mark::EqEq),
        ('!', '=') => Some(Mark::NotEq),
        ('<', '=') => Some(Mark::LessEq),
        ('>', '=') => Some(Mark::GreaterEq),
        ('&', '&') => Some(Mark::AndAnd),
        ('|', '|') => Some(Mark::OrOr),
        _ => None,
    }
}

/// The mark of this character alone.
#[tactic(auto, unfolding(crate::specs::Vocabulary::single_mark))]
pub fn single_mark(c: char) -> Option<Mark>
    ensures { result ≡ spec.single_mark c }
{
    match c {
        '{' => Some(Mark::LBrace),
        '}' => Some(Mark::RBrace),
        '(' => Some(Mark::LParen),
        ')' => Some(Mark::RParen),
        ',' => Some(Mark::Comma),
        ';' => Some(Mark::Semi),
        ':' => Some(Mark::Colon),
        '=' => Some(Mark::Equals),
        '.' => Some(Mark::Dot),
        '#' => Some(Mark::Hash),
        '+' => Some(Mark::Plus),
        '-' => Some(Mark::Minus),
        '*' => Some(Mark::Star),
        '<' => Some(Mark::Less),
        '>' => Some(Mark::Greater),
        '!' => Some(Mark::Bang),
        _ => None,
    }
}
