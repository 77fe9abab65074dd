//! How long a search goes on, and what each of its rounds is to do.

ghost use Rattle.std.specs.Prelude.{◌≡◌, ◌+◌, ◌<◌, ◌≤◌, ◌^◌, ◌↔◌, IsTrue};
ghost use Rattle.ih_optimizer.specs.Below.Searches.{MayGoOn};
ghost use Rattle.ih_optimizer.specs.Pacing.{IsLawfulPace, IsNextSpan, attempts_through, most_rounds, rounds_left};
ghost use Rattle.ih_optimizer.specs.Pacing.{share_of};

use crate::times::{Times, timed_span};
use ih_improve::{Improver, MAX_ATTEMPTS, MAX_ROUNDS, Span};

/// The most attempts of all workers of a call together.
pub const MAX_CALL_ATTEMPTS: u64 = 1_000_000_000_000;
/// The most rounds that a call may ask for.
pub const MAX_CALL_ROUNDS: u32 = 10_000;
/// The most seconds of a call: a week.
pub const MAX_SECONDS: u32 = 604_800;

/// How long a search goes on.
#[derive(Clone, Copy, Debug, PartialEq, Eq)]
pub enum Length {
    /// So many attempts of each worker.
    Attempts(u64),
    /// So many seconds.
    Seconds(u32),
}

/// How long a search goes on, and in how many rounds.
#[derive(Clone, Copy, Debug, PartialEq, Eq)]
pub struct Pace {
    pub length: Length,
    /// How often the best plan goes out to all workers. By the clock it is about so often, and more often in a long
    /// search.
    pub rounds: u32,
}

impl Pace {
    /// At most so many rounds are made.
    pub(crate) fn most_rounds(&self) -> u32
        ensures { result ≡ most_rounds self.now.length self.now.rounds }
    {
        match self.length {
            Length::Attempts(_) => self.rounds,
            Length::Seconds(_) => MAX_ROUNDS,
        }
    }

    /// Whether no round is left, once so many are made.
    pub(crate) fn is_over(&self, is_time_over: bool, made: u32) -> bool
        ensures { IsTrue result ↔ (rounds_left self.now.length self.now.rounds is_time_over made ≡ 0) }
    {
        match self.length {
            Length::Attempts(_) => self.rounds <= made,
            Length::Seconds(_) => is_time_over || MAX_ROUNDS <= made,
        }
    }
}

// How many attempts a worker has made once so many rounds are over.
fn attempts_through(attempts: u64, rounds: u32, over: u32) -> u64
    requires some { 1 ≤ rounds }
    requires few { attempts ≤ MAX_CALL_ATTEMPTS }
    requires few_rounds { over ≤ MAX_CALL_ROUNDS }
    ensures value { result ≡ attempts_through attempts rounds over }
    ensures most { result ≤ 10 ^ 16 }
{
    attempts * u64::from(over) / u64::from(rounds)
}

// The next of so many rounds of so many attempts.
fn share_of(attempts: u64, rounds: u32, improver: &Improver<'_>) -> Span
    requires some { 1 ≤ rounds }
    requires few_rounds { rounds ≤ MAX_CALL_ROUNDS }
    requires few { attempts ≤ MAX_CALL_ATTEMPTS }
    requires more { improver.now.rounds < rounds }
    ensures share { result ≡ share_of attempts rounds improver.now }
    ensures few { improver.now.attempts + result.attempts ≤ 10 ^ 17 }
{
    let through = attempts_through(attempts, rounds, improver.rounds_made() + 1);
    let before = improver.attempts_each();
    Span {
        attempts: through.saturating_sub(before),
        from: before,
        to: through,
        whole: attempts,
        is_cold: false,
    }
}

/// What the next round is to do.
pub(crate) fn next_span(pace: &Pace, times: &Times, improver: &Improver<'_>) -> Span
    requires lawful { IsLawfulPace pace.now }
    requires left { 0 < rounds_left pace.now.length pace.now.rounds times.now.is_over improver.now.rounds }
    ensures next { IsNextSpan pace.now.length pace.now.rounds improver.now result }
    ensures may { MayGoOn improver.now result }
{
    match pace.length {
        Length::Attempts(attempts) => share_of(attempts, pace.rounds, improver),
        Length::Seconds(seconds) => {
            let most = MAX_ATTEMPTS - improver.attempts_each();
            timed_span(seconds, pace.rounds, times, most)
        }
    }
}
