//! Why a script is not played to its end.
use script::Fault;
use std::alloc::{AllocError, AllocFailed, Global};
use std::io;

/// Why a script is not played to its end.
#[derive(Drop)]
pub(crate) enum Failure {
    /// It cannot be read.
    Unread(io::Error),
    /// A line of it is turned away, for this reason.
    Wrong(String),
    /// Nothing more can be printed, or memory is wanting.
    Unprinted(io::Error),
}

impl From<io::Error> for Failure {
    fn from(error: io::Error) -> Failure {
        Failure::Unprinted(error)
    }
}

impl From<AllocError> for Failure {
    fn from(error: AllocError) -> Failure {
        Failure::Unprinted(error.into())
    }
}

impl<T: Drop> From<AllocFailed<T>> for Failure {
    fn from(failed: AllocFailed<T>) -> Failure {
        Failure::from(AllocError::from(failed))
    }
}

// The reason as text, made here since the fault does not outlive the line that it is in.
pub(crate) fn wrong(heap: Global, fault: Fault<'_>) -> Failure {
    match format!(in heap; "{fault}") {
        Ok(text) => Failure::Wrong(text),
        Err(error) => error.into(),
    }
}
