//! The tests of compound rules.
use brisk_values::Name;
use thiserror::Error;

/// The test of a compound rule, at its entry or at its close, that fails first.
#[derive(Clone, Copy, Debug, PartialEq, Eq, Error)]
pub enum SideFault {
    #[error("rules are nested too deep")]
    TooDeep,
    #[error("the set is in focus already")]
    SetIsFocused,
    #[error("the set may be empty")]
    MayBeEmpty,
    #[error("the owner has code left")]
    OwnerUnfinished(Name),
    #[error("the thread doesn't stand where it stood")]
    NotRestored(Name),
    #[error("other messages pend than did")]
    MailChanged,
    #[error("a fact was lost")]
    FactLost,
    #[error("a message of the member pends")]
    MailLeft,
    #[error("the member may send again")]
    NotQuiet,
    #[error("the two sides end in different states")]
    BranchesDiffer,
    #[error("the thread has code left at the end")]
    Unfinished(Name),
    #[error("more than one message pends on a loose channel")]
    ManyPending,
    #[error("the sender may send again on a loose channel")]
    SenderNotQuiet,
}
