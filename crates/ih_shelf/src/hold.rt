//! A gate for tests that two workers attempt side by side.

use crate::outside::Gate;
use std::sync::Wait;
use std::sync::atomic::{AtomicBool, AtomicU64, Ordering};
use std::thread::yield_now;

/// A gate that holds two workers, so that worker 0's attempt of each number is offered after worker 1's, though it was
/// priced before. Only numbers below `numbers` are held: `before(1, m)` waits until `before(0, x)` was called for an x
/// of m or more, and `before(0, m)` until `after(1, x)` was called for an x of m or more. It takes no memory.
#[derive(Drop)]
pub struct HoldGate {
    limit: u64,
    numbers: u32,
    // One more than the greatest number that worker 0 has priced, or 0.
    priced: AtomicU64,
    // One more than the greatest number whose verdict worker 1 knows, or 0.
    judged: AtomicU64,
    ran_out: AtomicBool,
}

impl HoldGate {
    /// A gate that holds the numbers below `numbers`, each wait for at most `limit` turns. In one turn it looks once at
    /// what it waits for.
    pub const fn new(limit: u64, numbers: u32) -> HoldGate {
        HoldGate {
            limit,
            numbers,
            priced: AtomicU64::new(0),
            judged: AtomicU64::new(0),
            ran_out: AtomicBool::new(false),
        }
    }

    /// Whether a wait has ended in vain. From then on every call returns at once.
    pub fn ran_out(&self) -> bool {
        self.ran_out.load(Ordering::SeqCst)
    }

    // Waits until the word is above the number, for at most `limit` turns.
    fn hold(&self, word: &AtomicU64, number: u32) {
        if number >= self.numbers || self.ran_out() {
            return;
        }
        for _ in 0..self.limit {
            if word.load(Ordering::SeqCst) > u64::from(number) {
                return;
            }
            yield_now();
        }
        self.ran_out.store(true, Ordering::SeqCst);
    }
}

// The word is at least one more than the number from now on.
fn reach(word: &AtomicU64, number: u32) {
    word.fetch_max(u64::from(number) + 1, Ordering::SeqCst);
}

impl Gate for HoldGate {
    fn before<R: Wait>(&self, _rt: &R, worker: u32, number: u32) {
        match worker {
            0 => {
                reach(&self.priced, number);
                self.hold(&self.judged, number);
            }
            1 => self.hold(&self.priced, number),
            _ => {}
        }
    }

    fn after<R: Wait>(&self, _rt: &R, worker: u32, number: u32) {
        if worker == 1 {
            reach(&self.judged, number);
        }
    }
}
