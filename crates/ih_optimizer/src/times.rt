//! Where a search by the clock stands: it is asked between rounds alone.

ghost use Rattle.std.specs.Prelude.{◌≡◌, ◌≤◌, false};

use crate::pacing::{Length, Pace};
use crate::watches::Watch;
use ih_improve::Span;

// How many attempts each worker makes in the first round, before anything is known of how long they take.
const FIRST_ATTEMPTS: u64 = 1000;
// How many times as many attempts a round may have as the one before it.
const MOST_GROWTH: u64 = 50;
// The longest round, in microseconds.
const LONGEST_ROUND: u64 = 30_000_000;

/// Times in microseconds since the search began.
#[derive(Clone, Copy, Debug)]
pub(crate) struct Times {
    // What the watch said as the search began.
    began: Option<u64>,
    /// How much time had passed as the last round ended.
    pub(crate) passed: u64,
    // How long the last round lasted, and how many attempts each worker made in it.
    lasted: u64,
    attempts: u64,
    /// Whether time is over.
    pub(crate) is_over: bool,
}

// How long so many seconds are.
fn micros_of(seconds: u32) -> u64 {
    u64::from(seconds) * 1_000_000
}

impl Times {
    /// The times as a search begins. Without a clock's time it isn't asked.
    pub(crate) fn begin<W: Watch>(pace: &Pace, watch: &mut W) -> Times
        ensures { result.is_over ≡ false }
    {
        Times {
            began: match pace.length {
                Length::Attempts(_) => None,
                Length::Seconds(_) => watch.micros(),
            },
            passed: 0,
            lasted: 0,
            attempts: 0,
            is_over: false,
        }
    }

    // How many attempts of a worker fit so long a time, by the rate of the last round.
    fn attempts_in(&self, time: u64) -> u64 {
        if self.lasted == 0 {
            return FIRST_ATTEMPTS;
        }
        let fit = self.attempts.saturating_mul(time) / self.lasted;
        fit.min(self.attempts.saturating_mul(MOST_GROWTH)).max(1)
    }

    /// The seconds that are left of so many.
    pub(crate) fn seconds_left(&self, seconds: u32) -> u64 {
        micros_of(seconds).saturating_sub(self.passed) / 1_000_000
    }

    /// How many attempts so many workers made a second in the last round.
    pub(crate) fn rate(&self, workers: u64) -> u64 {
        self.attempts
            .saturating_mul(workers)
            .saturating_mul(1_000_000)
            / self.lasted.max(1)
    }
}

/// What the next round by the clock is to do. Rounds have even shares of the time, by the rate of the one before. In the
/// last fiftieth of the time the temperature is 0.
pub(crate) fn timed_span(seconds: u32, rounds: u32, times: &Times, most: u64) -> Span
    ensures { result.attempts ≤ most }
{
    let whole = micros_of(seconds);
    let warm = whole - whole / 50;
    // What is left of the warm part may be too short for a round.
    let is_cold = warm <= times.passed.saturating_add(whole / 1000);
    let left = (if is_cold { whole } else { warm }).saturating_sub(times.passed);
    let part = (whole / u64::from(rounds).max(1)).min(LONGEST_ROUND);
    let time = if left < part + part / 2 { left } else { part };
    Span {
        attempts: times.attempts_in(time).min(most),
        from: times.passed,
        to: times.passed.saturating_add(time),
        whole: warm,
        is_cold,
    }
}

// The times once a round by the clock is over. Time is over too where the watch fails, stands still or goes back, and
// after the cold round.
fn timed<W: Watch>(seconds: u32, span: &Span, times: &Times, watch: &mut W) -> Times {
    let passed = match (times.began, watch.micros()) {
        (Some(began), Some(now)) => now.saturating_sub(began),
        _ => 0,
    };
    if passed <= times.passed {
        return Times {
            is_over: true,
            ..*times
        };
    }
    Times {
        began: times.began,
        passed,
        lasted: passed - times.passed,
        attempts: span.attempts,
        is_over: span.is_cold || micros_of(seconds) <= passed,
    }
}

/// The times once a round is over.
pub(crate) fn after_round<W: Watch>(
    pace: &Pace,
    span: &Span,
    times: &Times,
    watch: &mut W,
) -> Times {
    match pace.length {
        Length::Attempts(_) => *times,
        Length::Seconds(seconds) => timed(seconds, span, times, watch),
    }
}
