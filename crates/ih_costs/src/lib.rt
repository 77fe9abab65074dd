//! The price of a move, write by write, and its footprint: ledgers stand for a timetable, try the move and take it
//! back.
#![tactic(auto)]

mod cell_ledgers;
mod choice_prices;
mod copies;
mod footprints;
mod laws;
mod ledgers;
mod parts;
mod pricing;
mod row_footprints;
mod row_prices;
mod scratch;
mod series;
mod stay_prices;
mod stays;

pub use laws::{choices_have_deltas, moves_touch_at_once, stays_have_deltas};
pub use ledgers::Ledgers;
