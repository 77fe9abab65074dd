//! The files that a program is given: of an instance, of timetables for it and of a journal.
#![tactic(auto)]

mod error;
mod reading;

pub use error::{InputError, InputRole, Refused};
pub use reading::{InputNames, Inputs, MAX_FILE, MAX_JOURNAL, read_inputs};
