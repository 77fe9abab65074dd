//! What is found on an instance.

use crate::prices::{Prices, Rates};

/// Where a bound comes from, in units of the weighted cost: what it would cost by the choices of the last rounds, on
/// average, that patients wait and are left out and that theatres open; and all the rest, which is of nurses.
#[derive(Clone, Copy, Debug, PartialEq, Eq)]
pub struct Parts {
    pub delay: u64,
    pub left_out: u64,
    pub theatres: u64,
    pub nurses: u64,
}

/// That no feasible timetable costs less than `value`.
#[derive(Clone, Copy, Debug, PartialEq, Eq)]
pub struct Bound {
    /// In units of the weighted cost.
    pub value: u64,
    /// How often prices were tried.
    pub rounds: u32,
    /// What the value is made up of.
    pub parts: Parts,
}

/// What is said of all feasible timetables of an instance.
#[derive(Clone, Copy, Debug, PartialEq, Eq)]
pub enum Outcome {
    /// There is none.
    Infeasible,
    /// None costs less.
    AtLeast(Bound),
}

/// What is said, and the prices that show it. Where no timetable is feasible, they are empty.
#[derive(Drop)]
pub struct Priced {
    pub outcome: Outcome,
    // What a unit of each cost is worth.
    pub(crate) rates: Rates,
    pub(crate) prices: Prices,
    // What they show, in parts.
    pub(crate) shown: u64,
}
