//! Why a text is no well-typed program.
use brisk_lex::{LexFault, Placed};
use brisk_parse::ParseFault;
use brisk_types::TypeFault;
use thiserror::Error;

/// The most bytes that a text may have.
pub const MOST_BYTES: usize = 16_777_216;

/// A syntax fault names the token, counted from 0, a fault of typing the byte of its token.
#[derive(Clone, Copy, Debug, PartialEq, Eq, Error)]
pub enum TextFault {
    #[error("the text is too long")]
    TooLong,
    #[error("{0}")]
    Tokens(#[from] LexFault),
    #[error("{0}")]
    Syntax(#[from] ParseFault),
    #[error("{0}")]
    Typing(TypeFault),
}

// The byte of the token.
fn byte(tokens: &[Placed], index: u32) -> u32 {
    match tokens.get(index as usize) {
        Some(token) => token.at,
        None => u32::MAX,
    }
}

/// The fault with the byte of its token in place of the index.
pub fn at_byte(tokens: &[Placed], fault: TypeFault) -> TypeFault {
    match fault {
        TypeFault::Unknown(index) => TypeFault::Unknown(byte(tokens, index)),
        TypeFault::Twice(index) => TypeFault::Twice(byte(tokens, index)),
        TypeFault::NotASet(index) => TypeFault::NotASet(byte(tokens, index)),
        TypeFault::NotSingle(index) => TypeFault::NotSingle(byte(tokens, index)),
        TypeFault::SelfPartner(index) => TypeFault::SelfPartner(byte(tokens, index)),
        TypeFault::WrongCount(index) => TypeFault::WrongCount(byte(tokens, index)),
        TypeFault::WrongKind(index) => TypeFault::WrongKind(byte(tokens, index)),
        TypeFault::NoMemory => TypeFault::NoMemory,
    }
}
