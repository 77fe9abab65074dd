//! The greedy fill by several workers: the candidates of each choice are dealt to them, and priced side by side; and
//! what a search of files starts from, which may be such a fill.
#![tactic(auto)]

mod filling;
mod joining;
mod nurses;
mod scans;
mod starts;
mod stays;

pub use filling::par_fill;
pub use starts::{SearchStart, search_start};
