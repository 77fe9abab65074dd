//! The desk at which workers share a book, the workers, and the search that they make together.
#![tactic(auto)]

mod desk;
mod drawing;
mod given;
mod laws;
mod passing;
mod seated_workers;
mod side_by_side;
mod whole_search;
mod worker_loop;

pub use desk::{Desk, DeskOf, DeskOver, DeskSeat};
pub use given::Given;
pub use laws::finished_searches_are_full;
pub use seated_workers::{Seated, WorkerOn};
pub use side_by_side::run_all;
pub use whole_search::search_at_desk;
pub use worker_loop::WorkerLoop;
