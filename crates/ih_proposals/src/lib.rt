//! What a search tries: moves that look at the plan before they are priced, drawn by random words.
#![tactic(auto)]

mod arrivals;
mod beds;
mod best_place;
mod cheapest_nurse;
mod clearing;
mod ejection;
mod fitting;
mod free_rooms;
mod kempe;
mod leaving;
mod mending;
mod merging;
mod mix;
mod moments;
mod new_stays;
mod nurse_of_stay;
mod nurse_repair;
mod nurse_run;
mod nurse_swap;
mod nurses;
mod place;
mod proposing;
mod regroup;
mod room_days;
mod situation;
mod stays;
mod surgeries;
mod swap;
mod theatres;
mod words;

pub use free_rooms::FreeRooms;
pub use mending::{Mend, breaks_rule, mend_shift, mend_stay};
pub use proposing::{propose, repair};
pub use words::RandomWords;
