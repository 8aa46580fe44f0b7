//! Why a read or a write fails.
use thiserror::Error;

/// Why a read gave nothing.
#[derive(Clone, Copy, Debug, PartialEq, Eq, Error)]
pub enum FolderFault {
    #[error("there is no such file")]
    Missing,
    #[error("the file could not be read")]
    Failed,
    #[error("out of memory")]
    NoMemory,
}

/// Why a write took nothing.
#[derive(Clone, Copy, Debug, PartialEq, Eq, Error)]
pub enum SinkFault {
    #[error("the output could not be written")]
    Failed,
}
