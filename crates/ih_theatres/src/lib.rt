//! Who has surgery in each operating theatre and by each surgeon on each day, kept while patients enter and leave.
#![tactic(auto)]

mod changes;
mod days;
mod marks;
mod parts;
mod theatres;

pub use theatres::Theatres;
