//! The ledger of room days: who is in each room on each day of a timetable, and what that costs.
#![tactic(auto)]

mod bills;
mod changes;
mod genders;
mod occupancies;
mod profiles;
mod room_days;
mod room_lists;

pub use room_days::{RoomDays, members_are_present};
