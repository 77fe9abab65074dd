//! The words of a command line, for any program: how it is run on them, the rules by which `clap` reads them as
//! arguments, the values that it gives, and what words have to fulfil besides: file names that differ, and what a
//! search starts from.
#![tactic(auto)]

pub mod arguments;
pub mod explaining;
pub mod file_names;
pub mod matches;
pub mod start;
pub mod words;
