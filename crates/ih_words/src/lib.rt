//! The words of a command line: the command that they give, with its values, or that they give none.
//! Each command has a description for `clap`, which reads the words, and conditions of its own on what was read.
#![tactic(auto)]

mod advise;
mod check;
mod command;
mod demo;
mod error;
mod generate;
mod laws;
mod plain;
mod replay;
mod search_options;
mod solve;

pub use advise::Advise;
pub use check::Check;
pub use command::{Command, read_words};
pub use error::WordsError;
pub use generate::Gen;
pub use ih_arguments::start::Start;
pub use laws::named_calls_are_within_limits;
pub use plain::{MAX_LENGTH, MAX_ROUNDS, Plain};
pub use replay::Replay;
pub use solve::Solve;
