//! Checked reading of JSON files: each value is read at its place, and the first check that fails is the refusal.
#![tactic(auto)]

pub mod documents;
mod errors;
pub mod json_values;
pub mod keys;
pub mod reads;
mod rows;
mod vectors;

pub use errors::FormatError;
pub use rows::Row;
