//! How a call of any command goes: its files are read, the command says what it comes to, that is written and said, and
//! the call ends with a status. A command itself reaches no file and no output.
#![tactic(auto)]

mod command;
mod going_on;
mod names;
mod outcome;
mod performing;
mod steps;
mod writing;

pub use command::Command;
pub use going_on::go_on;
pub use names::two_names;
pub use outcome::{Made, Outcome, Writing};
pub use performing::{carry_out, finish, perform};
pub use steps::Steps;
