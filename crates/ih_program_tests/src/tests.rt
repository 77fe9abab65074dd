//! The tests, by what they call, and the program that they try.

mod advice;
mod chains;
mod examples;
mod files;
mod fills;
mod journals;
mod noted;
mod program;
mod rounds;
mod words;
mod workers;
