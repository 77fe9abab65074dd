//! Small wards, on which the test crates try the other crates' calls. What is to hold there is handed in, so that no
//! test owns a ward.
#![tactic(auto)]

mod bills;
mod cuts;
mod pairs;
mod starts;
mod texts;
mod two;
mod words;

pub use bills::is_dearer_by;
pub use cuts::{cut, put_changed};
pub use pairs::{list_of, two_of};
pub use starts::{at, first_day, on_first_admitted};
pub use texts::{TWO_PATIENTS, WARD};
pub use two::on_two_patients;
pub use words::{number, word};

/// Threads share it.
pub fn share<T: Send + Sync>(_x: &T) {}
