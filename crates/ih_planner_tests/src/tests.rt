//! The tests, by what they call, and the program that they try.

mod bounded;
mod bounds;
mod carries;
mod checks;
mod improving;
mod keeping;
mod program;
mod reasons;
mod repairs;
mod tables;
mod timed;
mod views;
mod views_changes;
mod ward_page;
