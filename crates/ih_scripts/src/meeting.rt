//! A search whose workers are all at work at once: a gate holds each until every one has priced its first move.

use crate::held::lines_behind;
use ih_shelf::{Gate, MemShelf};
use std::sync::Wait;
use std::sync::atomic::{AtomicBool, AtomicU64, Ordering};
use std::thread::yield_now;

// The most turns for which the gate holds a worker.
const TURNS: u64 = 100_000_000;

/// A gate at which so many workers meet: no first move is offered until each of them has priced one.
#[derive(Drop)]
pub struct MeetingGate {
    workers: u64,
    // How many have priced their first move.
    there: AtomicU64,
    // Whether a wait has ended in vain.
    ran_out: AtomicBool,
}

impl MeetingGate {
    /// A gate at which so many workers meet.
    pub(crate) fn new(workers: u64) -> MeetingGate {
        MeetingGate {
            workers,
            there: AtomicU64::new(0),
            ran_out: AtomicBool::new(false),
        }
    }

    pub(crate) fn ran_out(&self) -> bool {
        self.ran_out.load(Ordering::SeqCst)
    }

    fn wait_for_all(&self) {
        for _ in 0..TURNS {
            if self.there.load(Ordering::SeqCst) >= self.workers {
                return;
            }
            yield_now();
        }
        self.ran_out.store(true, Ordering::SeqCst);
    }
}

impl Gate for MeetingGate {
    fn before<R: Wait>(&self, _rt: &R, _worker: u32, number: u32) {
        if number == 0 {
            self.there.fetch_add(1, Ordering::SeqCst);
            self.wait_for_all();
        }
    }

    fn after<R: Wait>(&self, _rt: &R, _worker: u32, _number: u32) {}
}

// Whether a line is of a worker's first move, priced before anything was in the journal.
fn is_first_of_all(line: &str) -> bool {
    let mut words = line.split(' ').skip(2);
    words.next() == Some("0") && words.next() == Some("0")
}

// How many first moves were priced on the start.
fn priced_on_the_start(lines: &str) -> u64 {
    let mut firsts: u64 = 0;
    for line in lines.split('\n') {
        if is_first_of_all(line) {
            firsts = firsts.saturating_add(1);
        }
    }
    firsts
}

/// Whether so many first moves of the journal `j` were priced on the start.
pub(crate) fn began_together(shelf: &MemShelf, workers: u64) -> bool {
    match lines_behind(shelf, "j") {
        Some(lines) => priced_on_the_start(lines) == workers,
        None => false,
    }
}
