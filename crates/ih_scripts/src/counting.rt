//! A gate that counts who passes it.

use ih_shelf::Gate;
use std::sync::Wait;
use std::sync::atomic::{AtomicBool, AtomicU64, Ordering};

// The calls before and after that a worker has made.
#[derive(Drop)]
struct Passes {
    before: AtomicU64,
    after: AtomicU64,
    // One more than the number of the last.
    next: AtomicU64,
}

impl Passes {
    fn new() -> Passes {
        Passes {
            before: AtomicU64::new(0),
            after: AtomicU64::new(0),
            next: AtomicU64::new(0),
        }
    }

    fn begun(&self) -> u64 {
        self.before.load(Ordering::SeqCst)
    }

    fn ended(&self) -> u64 {
        self.after.load(Ordering::SeqCst)
    }

    fn next(&self) -> u64 {
        self.next.load(Ordering::SeqCst)
    }

    // Whether there are so many of each, and `next` comes after the number of the last.
    fn are(&self, passes: u64, next: u64) -> bool {
        self.begun() == passes && self.ended() == passes && self.next() == next
    }
}

/// A gate that counts the calls of two workers. Each is to call before and after in turn, with numbers that rise.
#[derive(Drop)]
pub struct CountingGate {
    first: Passes,
    second: Passes,
    strayed: AtomicBool,
}

impl CountingGate {
    /// A gate that nobody has passed.
    pub fn new() -> CountingGate {
        CountingGate {
            first: Passes::new(),
            second: Passes::new(),
            strayed: AtomicBool::new(false),
        }
    }

    fn passes(&self, worker: u32) -> &Passes {
        if worker == 0 {
            &self.first
        } else {
            &self.second
        }
    }

    fn note(&self, in_turn: bool) {
        if !in_turn {
            self.strayed.store(true, Ordering::SeqCst);
        }
    }

    fn strayed(&self) -> bool {
        self.strayed.load(Ordering::SeqCst)
    }

    /// Whether both workers have passed so often, in turn, and `next` comes after the last number.
    pub fn counted(&self, passes: u64, next: u64) -> bool {
        self.first.are(passes, next) && self.second.are(passes, next) && !self.strayed()
    }
}

impl Gate for CountingGate {
    fn before<R: Wait>(&self, _rt: &R, worker: u32, number: u32) {
        let passes = self.passes(worker);
        let number = u64::from(number);
        self.note(worker < 2 && passes.begun() == passes.ended() && passes.next() <= number);
        passes.before.fetch_add(1, Ordering::SeqCst);
        passes.next.store(number + 1, Ordering::SeqCst);
    }

    fn after<R: Wait>(&self, _rt: &R, worker: u32, number: u32) {
        let passes = self.passes(worker);
        let number = u64::from(number);
        self.note(worker < 2 && passes.begun() > passes.ended() && passes.next() == number + 1);
        passes.after.fetch_add(1, Ordering::SeqCst);
    }
}
