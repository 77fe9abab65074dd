//! A watch: what a search asks for the time. Nothing is promised of what it says.

use std::rt::Clock;

/// What is asked for the time.
pub trait Watch: Drop {
    /// The time in microseconds, since whenever; nothing where it can't be told.
    fn micros(&mut self) -> Option<u64>;
}

/// The machine's own clock, which doesn't go back.
#[derive(Drop)]
pub struct ClockWatch<'r, R> {
    rt: &'r R,
}

impl<'r, R: Clock> ClockWatch<'r, R> {
    /// The watch of this clock.
    pub fn new(rt: &'r R) -> ClockWatch<'r, R> {
        ClockWatch { rt }
    }
}

impl<'r, R: Clock> Watch for ClockWatch<'r, R> {
    fn micros(&mut self) -> Option<u64> {
        let time = self.rt.monotonic().ok()?;
        u64::try_from(time.as_micros()).ok()
    }
}

/// A watch for tests: each time that it is asked it is later by the same, but for one time that is set.
#[derive(Drop, Clone, Copy)]
pub struct TestWatch {
    /// How often it was asked.
    asked: u64,
    /// By so much it is later each time.
    step: u64,
    /// What happens as it is asked so often.
    odd: u64,
    at_odd: Option<u64>,
}

impl TestWatch {
    /// It is later by so many microseconds each time.
    pub fn every(step: u64) -> TestWatch {
        TestWatch {
            asked: 0,
            step,
            odd: u64::MAX,
            at_odd: None,
        }
    }

    /// This watch, changed for one time: when it is asked for the time with number `odd`, from 0, it says `at_odd`
    /// microseconds, or nothing where that is none.
    pub fn but(self, odd: u64, at_odd: Option<u64>) -> TestWatch {
        TestWatch {
            odd,
            at_odd,
            ..self
        }
    }
}

impl Watch for TestWatch {
    fn micros(&mut self) -> Option<u64> {
        let now = self.asked;
        self.asked = now.saturating_add(1);
        if now == self.odd {
            self.at_odd
        } else {
            Some(now.saturating_mul(self.step))
        }
    }
}
