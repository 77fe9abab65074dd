//! The solution file: a timetable as the competition's JSON.
#![tactic(auto)]

mod listed;
mod nurses;
mod patients;
mod reader;
mod writer;

pub use ih_format::FormatError as SolutionError;
pub use listed::listed_values;
pub use reader::read_solution;
pub use writer::write_solution;
