//! The reader of instance files in the competition's JSON format.
#![tactic(auto)]

mod drafts;
mod nurses;
mod occupants;
mod patients;
mod people;
mod rooms;
mod surgery;
mod weights;
mod words;

pub use drafts::read_instance;
pub use ih_format::FormatError as InstanceError;
