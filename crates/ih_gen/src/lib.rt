//! Instances of usual size, each made from one number.
#![tactic(auto)]

mod fixed;
mod instances;
mod members;
mod names;
mod nurses;
mod occupants;
mod patients;
mod persons;
mod picks;
mod rooms;
mod rows;

pub use instances::generate;
