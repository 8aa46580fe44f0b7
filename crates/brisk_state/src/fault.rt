//! Why a set can't come into focus.
use thiserror::Error;

/// Why a set can't come into focus.
#[derive(Clone, Copy, Debug, PartialEq, Eq, Error)]
pub enum FocusFault {
    #[error("no set has this name")]
    NoThread,
    #[error("the set is in focus already")]
    SetIsFocused,
}
