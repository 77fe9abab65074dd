//! Things as JSON values: numbers, names, lists, objects that are built member by member, and an instance.
#![tactic(auto)]

mod instances;
mod objects;
mod values;

pub use objects::{Array, Object};
pub use values::{Made, Shown, list_value, listed_value, numbered_value};
