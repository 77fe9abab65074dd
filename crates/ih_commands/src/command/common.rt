//! The arguments that several commands have, and what is said of several.

ghost use Rattle.ih_commands.specs.Below.Arguments.{IsNoHelp};

use ih_arguments::argument;
use ih_arguments::arguments::{Argument, Kind};
use ih_arguments::explaining::{NoCall, refused};
use ih_plan::MAX_WORKERS;
use std::alloc::Global;

// The table of a command's arguments, in order. A row is an argument that several commands have, or an id with its kind
// and what the help says of it.
macro_rules! arguments {
    (@row $argument:expr) => {
        $argument
    };
    (@row $id:expr => $kind:expr, $help:expr) => {
        Argument { id: $id, kind: $kind, help: $help }
    };
    ($($first:expr $(=> $kind:expr, $help:expr)?);+ $(;)?) => {
        [$(arguments!(@row $first $(=> $kind, $help)?)),+]
    };
}

pub(crate) use arguments;

/// The file of the instance.
pub const INSTANCE: Argument<'static> = argument!(
    "INSTANCE",
    Kind::Named,
    "The file of the instance"
);

/// The file of the solution.
pub const SOLUTION: Argument<'static> = argument!(
    "SOLUTION",
    Kind::Named,
    "The file of the solution"
);

/// How many workers look at patients.
pub const WORKERS: Argument<'static> = argument!(
    "workers",
    Kind::OptionalNumber(1, MAX_WORKERS),
    "How many look at patients side by side [default: 4]"
);
/// How many there are where no number is given.
pub const DEFAULT_WORKERS: u32 = 4;

/// What is said of a call of which two files have one name.
pub fn equal_names(alloc: Global) -> NoCall
    ensures { IsNoHelp result }
{
    refused(alloc, "two files of the call have one name")
}
