//! Timetables, moves and writes, and the definitions that the contracts of all other crates cite.
#![tactic(auto)]

mod freeze;
mod laws;
mod limits;
mod members;
mod moves;
mod numbers;
mod persons;
mod plans;

pub use freeze::frozen;
pub use laws::{series_are_their_writes, single_moves_are_series};
pub use limits::{MAX_FREEZE, MAX_HARD, MAX_HEAT, MAX_WORKERS};
pub use members::Members;
pub use moves::{Move, Placement, Write};
pub use numbers::{bit, increase};
pub use persons::{
    CareNeed, age_group, care_need_of, counted_shifts, end_from, end_of, is_present, nurse_at,
    same_gender, skill_of, stays_in, workload_of,
};
pub use plans::Plan;
