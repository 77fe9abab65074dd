//! Why a file isn't read.

ghost use Rattle.std.specs.Prelude.{◌≡◌};
ghost use Rattle.ih_format.specs.declared.errors.FormatError.TheVariants.{Refused, OutOfMemory};

use ih_tables::Refusal;
use std::alloc::{AllocError, AllocFailed};
use thiserror::Error;

/// Why a file isn't read.
#[derive(Clone, Copy, Debug, PartialEq, Eq, Error)]
pub enum FormatError {
    /// The file's first fault, and its place.
    #[error("{0}")]
    Refused(Refusal),
    /// Memory ran out.
    #[error("out of memory")]
    OutOfMemory,
}

impl From<Refusal> for FormatError {
    ghost from_gives = { λ r e. e ≡ Refused r };

    fn from(refusal: Refusal) -> FormatError {
        FormatError::Refused(refusal)
    }
}

impl From<AllocError> for FormatError {
    ghost from_gives = { λ _ e. e ≡ OutOfMemory };

    fn from(_e: AllocError) -> FormatError {
        FormatError::OutOfMemory
    }
}

impl<T: Drop> From<AllocFailed<T>> for FormatError {
    ghost from_gives = { λ _ e. e ≡ OutOfMemory };

    fn from(_e: AllocFailed<T>) -> FormatError {
        FormatError::OutOfMemory
    }
}
