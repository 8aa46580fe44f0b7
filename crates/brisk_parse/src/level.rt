//! Binary operators by their levels.
ghost use Rattle.std.specs.Prelude.{◌≡◌};
ghost use Rattle.std.specs.Option.{option_copied};
ghost use Rattle.brisk_parse.specs.Expressions as spec;

use brisk_lex::{Mark, Token};
use brisk_values::Op2;

/// A level at which operands may be repeated, the loosest first. Between `And` and `Sum` stands comparison.
#[derive(Clone, Copy, PartialEq, Eq)]
pub enum Level {
    Or,
    And,
    Sum,
    Product,
}

/// The operator of the level that the token is.
pub fn operator(level: Level, token: Option<&Token>) -> Option<Op2>
    ensures { result ≡ spec.operator level (option_copied token.entry) }
{
    match (level, token) {
        (Level::Or, Some(Token::Mark(Mark::OrOr))) => Some(Op2::Or),
        (Level::And, Some(Token::Mark(Mark::AndAnd))) => Some(Op2::And),
        (Level::Sum, Some(Token::Mark(Mark::Plus))) => Some(Op2::Add),
        (Level::Sum, Some(Token::Mark(Mark::Minus))) => Some(Op2::Sub),
        (Level::Product, Some(Token::Mark(Mark::Star))) => Some(Op2::Mul),
        _ => None,
    }
}

/// The comparison that the token is.
pub fn comparison_operator(token: Option<&Token>) -> Option<Op2>
    ensures { result ≡ spec.comparison_operator (option_copied token.entry) }
{
    match token {
        Some(Token::Mark(Mark::EqEq)) => Some(Op2::Eq),
        Some(Token::Mark(Mark::NotEq)) => Some(Op2::Ne),
        Some(Token::Mark(Mark::Less)) => Some(Op2::Lt),
        Some(Token::Mark(Mark::LessEq)) => Some(Op2::Le),
        Some(Token::Mark(Mark::Greater)) => Some(Op2::Gt),
        Some(Token::Mark(Mark::GreaterEq)) => Some(Op2::Ge),
        _ => None,
    }
}
