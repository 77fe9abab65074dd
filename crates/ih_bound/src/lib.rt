//! A lower bound: what no feasible timetable of an instance costs less than, by weak duality in integers. And what
//! is said of it.
#![tactic(auto)]

mod ascending;
mod bounding;
mod climbing;
mod dealing;
mod demand;
mod evaluating;
mod floors;
mod greatest;
mod hints;
mod incomes;
mod judging;
mod moving;
mod numbers;
mod outcomes;
mod people;
mod prices;
mod scarcity;
mod scratch;
mod sharing;
mod sharpening;
mod stays;
mod texts;

pub use bounding::{bound, bound_with_prices, refute};
pub use hints::hints_text;
pub use judging::{Judged, judge, no_infeasibility};
pub use outcomes::{Bound, Outcome, Parts, Priced};
pub use scarcity::{Dear, Scarcity, Thing, dearest};
pub use sharpening::sharpen;
pub use texts::{bound_text, put_gap, put_limit};
