//! A timetable as tables of comma-separated values, which spreadsheets take: by patients, nurses, rooms and theatres;
//! and its surgeries as a calendar.
#![tactic(auto)]

mod calendar;
mod dates;
mod laws;
mod lines;
mod names;
mod nurses;
mod patients;
mod rooms;
mod sheets;
mod shown;
mod subjects;
mod surgeries;
mod tables;

pub use laws::{nothing_ends_a_line, tables_read_back};
pub use subjects::Subject;
pub use tables::table;
