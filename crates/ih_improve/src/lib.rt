//! The search for better plans: rounds of workers side by side, each by attempts of its own.
#![tactic(auto)]

mod accepting;
mod comparing;
mod defaults;
mod distances;
mod given;
mod heats;
mod improver;
mod keeping;
mod laws;
mod legs;
mod logarithms;
mod mending;
mod pins;
mod rounds;
mod settings;
mod spans;
mod walkers;
mod workers;

pub use comparing::{Standing, is_better};
pub use given::Given;
pub use improver::Improver;
pub use laws::{
    GoesOn, defaults_are_determined, determined_workers_make_determined_rounds,
    workers_that_go_on_make_determined_rounds,
};
pub use legs::Leg;
pub use pins::Pins;
pub use rounds::Walks;
pub use settings::{MAX_ATTEMPTS, MAX_KEEP, MAX_ROUNDS, Settings};
pub use spans::Span;
