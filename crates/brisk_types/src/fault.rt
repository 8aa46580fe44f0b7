//! Why a program isn't well typed.
ghost use Rattle.std.specs.Prelude.{◌≡◌};
ghost use Rattle.brisk_types.specs.Failures as spec;
ghost use Rattle.brisk_types.specs.declared.fault.TypeFault.TheVariants.{NoMemory as OutOfMemory};

use brisk_values::NoMemory;
use std::alloc::{AllocError, AllocFailed};
use thiserror::Error;

/// Why a program isn't well typed, each with the index of the token.
#[derive(Clone, Copy, Debug, PartialEq, Eq, Error)]
pub enum TypeFault {
    #[error("token {0} is the name of nothing that may stand there")]
    Unknown(u32),
    #[error("the name at token {0} has another meaning")]
    Twice(u32),
    #[error("the role at token {0} is no set")]
    NotASet(u32),
    #[error("the role at token {0} is a set")]
    NotSingle(u32),
    #[error("the role at token {0} is the own one")]
    SelfPartner(u32),
    #[error("the message at token {0} has another number of values")]
    WrongCount(u32),
    #[error("another kind is wanted at token {0}")]
    WrongKind(u32),
    #[error("out of memory")]
    NoMemory,
}

/// What may fail at a token. Of several at one token the first of this list is answered.
#[derive(Clone, Copy, Debug, PartialEq, Eq)]
pub enum Rule {
    Unknown,
    Twice,
    NotASet,
    NotSingle,
    SelfPartner,
    WrongCount,
    WrongKind,
}

/// A rule that fails at a token.
#[derive(Clone, Copy, Debug, PartialEq, Eq)]
pub struct Failure {
    pub rule: Rule,
    pub at: u32,
}

impl Rule {
    fn rank(self) -> u32
        ensures { result ≡ spec.rank self }
    {
        match self {
            Rule::Unknown => 0,
            Rule::Twice => 1,
            Rule::NotASet => 2,
            Rule::NotSingle => 3,
            Rule::SelfPartner => 4,
            Rule::WrongCount => 5,
            Rule::WrongKind => 6,
        }
    }
}

impl Failure {
    fn is_before(&self, other: &Failure) -> bool
        ensures { result ≡ spec.is_before self.now other.now }
    {
        self.at < other.at || (self.at == other.at && self.rule.rank() < other.rule.rank())
    }

    /// The fault that is answered.
    pub fn fault(self) -> TypeFault
        ensures { result ≡ spec.fault_of self }
    {
        match self.rule {
            Rule::Unknown => TypeFault::Unknown(self.at),
            Rule::Twice => TypeFault::Twice(self.at),
            Rule::NotASet => TypeFault::NotASet(self.at),
            Rule::NotSingle => TypeFault::NotSingle(self.at),
            Rule::SelfPartner => TypeFault::SelfPartner(self.at),
            Rule::WrongCount => TypeFault::WrongCount(self.at),
            Rule::WrongKind => TypeFault::WrongKind(self.at),
        }
    }
}

/// The first of the failures that were noted.
#[derive(Clone, Copy)]
pub struct First {
    pub failure: Option<Failure>,
}

impl First {
    /// The answer, where all failures are noted.
    pub fn answer(self) -> Result<(), TypeFault>
        ensures { result ≡ spec.answer self.failure }
    {
        match self.failure {
            None => Ok(()),
            Some(failure) => Err(failure.fault()),
        }
    }

    /// Notes that the rule fails at the token.
    pub fn note(&mut self, rule: Rule, at: u32)
        ensures { self.new.failure ≡ spec.note_all self.old.failure (spec.fails rule at) }
    {
        let failure = Failure { rule, at };
        let first = match &self.failure {
            Some(first) => !failure.is_before(first),
            None => false,
        };
        if !first {
            self.failure = Some(failure);
        }
    }

    /// Notes it where it fails.
    pub fn note_if(&mut self, fails: bool, rule: Rule, at: u32)
        ensures { self.new.failure ≡ spec.note_all self.old.failure (spec.when fails rule at) }
    {
        if fails {
            self.note(rule, at);
        }
    }

    /// Notes the rule, where there is one.
    pub fn note_some(&mut self, rule: Option<Rule>, at: u32)
        ensures { self.new.failure ≡ spec.note_all self.old.failure (spec.broken rule at) }
    {
        if let Some(rule) = rule {
            self.note(rule, at);
        }
    }
}

impl From<NoMemory> for TypeFault {
    ghost from_gives = { λ _ e. e ≡ OutOfMemory };

    fn from(_: NoMemory) -> TypeFault {
        TypeFault::NoMemory
    }
}

impl From<AllocError> for TypeFault {
    ghost from_gives = { λ _ e. e ≡ OutOfMemory };

    fn from(_: AllocError) -> TypeFault {
        TypeFault::NoMemory
    }
}

impl<T: Drop> From<AllocFailed<T>> for TypeFault {
    ghost from_gives = { λ _ e. e ≡ OutOfMemory };

    fn from(_: AllocFailed<T>) -> TypeFault {
        TypeFault::NoMemory
    }
}
