//! Why words give no command.
ghost use Rattle.std.specs.Prelude.{◌≡◌, ◌↔◌};
ghost use Rattle.clap.specs.{Words.kind_of, declared.error.kind.ErrorKind.TheVariants.OutOfMemory as ClapOutOfMemory};
ghost use Rattle.ih_words.specs.declared.error.WordsError.TheVariants.{OutOfMemory};

use clap::error::ErrorKind;
use std::alloc::AllocError;
use thiserror::Error;

/// Why words give no command.
#[derive(Clone, Copy, Debug, PartialEq, Eq, Error)]
pub enum WordsError {
    /// No command has these words.
    #[error("no command has these words")]
    Unlawful,
    /// Memory ran out.
    #[error("out of memory")]
    OutOfMemory,
}

impl From<AllocError> for WordsError {
    ghost from_gives = { λ _ e. e ≡ OutOfMemory };

    fn from(_error: AllocError) -> WordsError {
        WordsError::OutOfMemory
    }
}

// `clap` answers lack of memory as an error of its own. All its other errors are faults of the words.
impl From<clap::Error> for WordsError {
    ghost from_gives = { λ error e. (e ≡ OutOfMemory) ↔ (kind_of error ≡ ClapOutOfMemory) };

    fn from(error: clap::Error) -> WordsError {
        match error.kind() {
            ErrorKind::OutOfMemory => WordsError::OutOfMemory,
            _ => WordsError::Unlawful,
        }
    }
}
