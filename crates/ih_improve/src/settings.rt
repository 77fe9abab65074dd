//! What a search is asked to do, and its limits.

use ih_plan::{MAX_HARD, MAX_HEAT, MAX_WORKERS};

/// The most attempts of a worker.
pub const MAX_ATTEMPTS: u64 = 100_000_000_000_000_000;
/// The most rounds.
pub const MAX_ROUNDS: u32 = 1_000_000;
/// The most points of a change.
pub const MAX_KEEP: u32 = 1_000_000;

/// What a search is asked to do. The most workers, the highest heat and the highest weight of a broken rule are
/// `MAX_WORKERS`, `MAX_HEAT` and `MAX_HARD` of `ih_plan`.
#[derive(Clone, Copy, Debug, PartialEq, Eq)]
pub struct Settings {
    /// Each worker's random words in each round begin from this, the round and the worker's number.
    pub seed: u64,
    /// How many workers search side by side.
    pub workers: u32,
    /// The heat at the first attempt, in units of the score. It falls to `cold` over the search's schedule.
    pub hot: u32,
    /// The heat at the last attempt, at most `hot`.
    pub cold: u32,
    /// The weight of a broken hard rule in a score.
    pub hard: u32,
    /// The first day whose choices may change.
    pub freeze: u32,
    /// How many points each change against the start weighs, in units of the score.
    pub keep: u32,
}

impl Settings {
    ghost use Rattle.std.specs.Prelude.{◌↔◌, IsTrue};
    ghost use Rattle.ih_improve.specs.Settings.{IsLawful};

    /// Whether each setting is within its limits. The seed and the freeze day have no limits.
    pub fn is_lawful(&self) -> bool
        ensures { IsTrue result ↔ IsLawful self.now }
    {
        1 <= self.workers
            && self.workers <= MAX_WORKERS
            && self.hot <= MAX_HEAT
            && self.cold <= self.hot
            && self.hard <= MAX_HARD
            && self.keep <= MAX_KEEP
    }
}
