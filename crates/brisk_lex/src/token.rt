//! Tokens, and where they stand.
use brisk_values::Name;

/// A reserved word.
#[derive(Clone, Copy, Debug, PartialEq, Eq)]
pub enum Word {
    KwEnum,
    KwChannel,
    KwOne,
    KwMany,
    KwNonempty,
    KwVar,
    KwInput,
    KwInt,
    KwBool,
    KwTrue,
    KwFalse,
    KwSend,
    KwTo,
    KwRecv,
    KwFrom,
    KwAny,
    KwIn,
    KwIf,
    KwElse,
    KwWhile,
    KwFor,
    KwRepeat,
    KwBegin,
    KwEnd,
    KwBox,
    KwPick,
    KwLoose,
}

/// A mark of one or two characters.
#[derive(Clone, Copy, Debug, PartialEq, Eq)]
pub enum Mark {
    LBrace,
    RBrace,
    LParen,
    RParen,
    Comma,
    Semi,
    Colon,
    /// `:=`
    Assign,
    /// `=`
    Equals,
    Dot,
    Hash,
    Plus,
    Minus,
    Star,
    EqEq,
    NotEq,
    Less,
    LessEq,
    Greater,
    GreaterEq,
    AndAnd,
    OrOr,
    Bang,
}

/// A token. A number is below 2^63, or 2^63 itself.
#[derive(Clone, Copy, Debug, PartialEq, Eq)]
pub enum Token {
    Word(Word),
    Name(Name),
    Num(u64),
    Mark(Mark),
}

/// A token, and the byte of its beginning.
#[derive(Clone, Copy, Debug, PartialEq, Eq)]
pub struct Placed {
    pub token: Token,
    pub at: u32,
}
