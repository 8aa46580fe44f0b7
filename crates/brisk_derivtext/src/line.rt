//! The lines of derivation texts.
use brisk_derivation::{BasicStep, Drops};
use brisk_syntax::Names;
use brisk_values::Name;

/// The two formats of derivation texts. In the second steps may be named as parts, and used by these names.
#[derive(Clone, Copy, Debug, PartialEq, Eq)]
pub enum Format {
    Format1,
    Format2,
}

/// A compound rule with one premise, without its steps.
#[derive(Drop)]
pub enum Loop {
    While(Name, Drops),
    /// The set, and the owners in the order named.
    For(Name, Names, Drops),
    Repeat(Name, Drops),
    Gather(Name, Drops),
    Pick(Name, Drops),
}

/// A line of a derivation text.
#[derive(Drop)]
pub enum Line {
    Head(Format),
    Plain(BasicStep),
    /// The first line of a branch.
    Fork(Name),
    /// The first line of another compound rule.
    Enter(Loop),
    /// The line between the sides of a branch.
    Else,
    /// The last line of a branch.
    Join,
    /// The last line of another compound rule.
    Close,
    End,
    /// The first line of a part.
    Part(Name),
    /// The last line of a part.
    EndPart,
    /// The use of a part.
    Use(Name),
}
