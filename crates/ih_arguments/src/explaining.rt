//! What is said where the words name no call: `clap`'s help, or an error that names the offending word. The error is
//! the program's own if `clap` finds no fault. No clause says what these texts are. Which of the two it is follows from
//! the kind of `clap`'s error.

ghost use Rattle.std.specs.Prelude.{◌≡◌};
ghost use Rattle.clap.specs.Words.{kind_of};
ghost use Rattle.ih_arguments.specs.Explaining.{IsExplainedAs, IsNoHelp};
ghost use Rattle.ih_arguments.specs.declared.explaining.NoCall.TheVariants.{OutOfMemory};

use clap::error::ErrorKind;
use std::alloc::{AllocError, Global};

/// Why words give no call.
#[derive(Debug, Drop)]
pub enum NoCall {
    /// They ask for help, and this is it.
    Help(String),
    /// No call has these words, and this says why.
    Refused(String),
    /// Memory ran out.
    OutOfMemory,
}

impl From<AllocError> for NoCall {
    ghost from_gives = { λ _ e. e ≡ OutOfMemory };

    fn from(_error: AllocError) -> NoCall {
        NoCall::OutOfMemory
    }
}

/// What `clap` says: help, where its error is a wish for that, else why it refuses the words.
pub fn explained(alloc: Global, error: clap::Error) -> NoCall
    ensures { IsExplainedAs (kind_of error) result }
{
    let Ok(text) = format!(in alloc; "{error}") else {
        return NoCall::OutOfMemory;
    };
    match error.kind() {
        ErrorKind::OutOfMemory => NoCall::OutOfMemory,
        ErrorKind::DisplayHelp => NoCall::Help(text),
        _ => NoCall::Refused(text),
    }
}

/// What is said of words in which `clap` finds no fault.
pub fn refused(alloc: Global, fault: &str) -> NoCall
    ensures { IsNoHelp result }
{
    match format!(in alloc; "error: {fault}\n\nFor more information, try '--help'.\n") {
        Ok(text) => NoCall::Refused(text),
        Err(_) => NoCall::OutOfMemory,
    }
}
