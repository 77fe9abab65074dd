//! Searches one after the other, each from the best timetable of the one before it, over anything that searches.
#![tactic(auto)]

mod asking;
mod laws;
mod noted;
mod round;
mod running;
mod searcher;

pub use laws::{
    journals_can_be_parted, journals_tell_rounds_apart, round_journals_are_short,
    rounds_get_no_dearer,
};
pub use noted::Noted;
pub use running::{RoundsEnd, rounds, rounds_by};
pub use searcher::Searcher;
