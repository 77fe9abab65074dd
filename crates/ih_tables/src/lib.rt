//! The tables of an instance: ids, the instance itself, bills, cells and refusals.
#![tactic(auto)]

pub mod bill_numbers;
mod bills;
mod cells;
mod checks;
mod drafts;
mod ids;
mod instances;
mod journal_refusals;
mod listed;
mod lists;
mod loads;
mod lookups;
mod names;
mod places;
mod refusals;
mod rosters;
mod validity;

pub use bills::{Bill, Weights, times};
pub use cells::Cell;
pub use drafts::{Draft, Nurse, Occupant, Patient, Room, Surgeon, Theatre, WorkedShift};
pub use ids::{Day, NurseNo, PatientNo, PersonNo, RoomNo, Shift, SurgeonNo, TheatreNo};
pub use instances::Instance;
pub use journal_refusals::{JournalRefusal, Reason};
pub use lists::List;
pub use lookups::{HasId, Names};
pub use names::Name;
pub use refusals::{Fault, Key, Place, Refusal, Step};
