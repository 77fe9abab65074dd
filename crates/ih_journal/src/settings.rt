//! The options of a search, and their limits.

use ih_plan::{MAX_HARD, MAX_HEAT, MAX_WORKERS};

/// The most moves of one worker.
pub const MAX_MOVES: u32 = 1_000_000;
/// The most retries of one move.
pub const MAX_RETRIES: u32 = 7;
/// The most entries that a journal may come to have.
pub const MAX_ENTRIES: u64 = 1_000_000;

/// What a search is asked to do.
#[derive(Clone, Copy, Debug, PartialEq, Eq)]
pub struct Options {
    /// The seed of worker 0's stream; worker w has the seed plus w, wrapping.
    pub seed: u64,
    /// How many workers search.
    pub workers: u32,
    /// How many moves each worker draws.
    pub moves: u32,
    /// The score up to which a worker's first move is accepted. It falls to 0 with the moves.
    pub heat: u32,
    /// The weight of a broken hard rule in a score.
    pub hard: u32,
    /// How often a stale move is tried again.
    pub retries: u32,
}

impl Options {
    ghost use Rattle.std.specs.Prelude.{◌↔◌, ◌≡◌, ◌<◌, IsTrue};
    ghost use Rattle.ih_journal.specs.Settings.{IsLawful, theta};

    /// Whether each option is within its limits, and a journal has at most `MAX_ENTRIES` entries.
    pub fn lawful(&self) -> bool
        ensures { IsTrue result ↔ IsLawful self.now }
    {
        let in_range = 1 <= self.workers
            && self.workers <= MAX_WORKERS
            && self.moves <= MAX_MOVES
            && self.heat <= MAX_HEAT
            && self.hard <= MAX_HARD
            && self.retries <= MAX_RETRIES;
        in_range
            && u64::from(self.workers) * u64::from(self.moves) * (u64::from(self.retries) + 1)
                <= MAX_ENTRIES
    }

    /// The greatest score at which a worker's attempt of this number is accepted: the heat, falling to 0 with the
    /// attempts.
    pub fn theta(&self, attempt_no: u32) -> i64
        requires lawful { IsLawful self.now }
        requires below { attempt_no < self.now.moves }
        ensures { result ≡ theta self.now attempt_no }
    {
        (self.heat as u64 * (self.moves - attempt_no) as u64 / self.moves as u64) as i64
    }
}
