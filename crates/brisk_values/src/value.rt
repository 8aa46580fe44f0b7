//! Values, their kinds, and processes.
ghost use Rattle.std.specs.Prelude.{◌≡◌};
ghost use Rattle.brisk_values.specs.Values.{kind_of as kind_of_value, same_kind as same_kind_of};

use crate::name::Name;

/// What a variable holds and a message carries.
#[derive(Clone, Copy, Debug, PartialEq, Eq)]
pub enum Value {
    Int(i64),
    Bool(bool),
    /// An enumeration, and its tag.
    Tag(Name, Name),
}

/// Which values a variable may hold.
#[derive(Clone, Copy, Debug, PartialEq, Eq)]
pub enum Kind {
    Int,
    Bool,
    Enum(Name),
}

/// A process: a member of a role, which is 0 for a single role.
#[derive(Clone, Copy, Debug, PartialEq, Eq, PartialOrd, Ord)]
pub struct Pid {
    pub role: Name,
    pub member: u32,
}

/// Whether two kinds are the same: `==`, with its meaning as a clause.
pub fn same_kind(a: &Kind, b: &Kind) -> bool
    ensures { result ≡ same_kind_of a.now b.now }
{
    match (a, b) {
        (Kind::Int, Kind::Int) | (Kind::Bool, Kind::Bool) => true,
        (Kind::Enum(e), Kind::Enum(f)) => e == f,
        _ => false,
    }
}

/// The kind of a value.
pub fn kind_of(value: &Value) -> Kind
    ensures { result ≡ kind_of_value value.now }
{
    match value {
        Value::Int(_) => Kind::Int,
        Value::Bool(_) => Kind::Bool,
        Value::Tag(e, _) => Kind::Enum(*e),
    }
}
