//! The program whose calls are tried.

use ih_scripts::{TestGate, first_wrong, words_of};
use ih_shelf::{Gate, MemShelf, MemSink, Shelf};
use ih_top::{Status, run};
use std::alloc::Global;
use std::process::Abort;
use std::rt::Files;
use std::sync::Wait;
use std::thread::Threads;

// The status of a call by these words. Nothing is promised of it here, so that no test is proved over what `run` is.
fn status_of<R: Files + Print + Threads + Wait + Sync, S: Shelf, G: Gate>(
    rt: &R,
    alloc: Global,
    words: &[String],
    shelf: &mut S,
    out: &mut MemSink,
    gate: &G,
) -> Status {
    run(rt, alloc, words, shelf, out, gate)
}

/// Tries a script, from no files on. The first event that doesn't come out so ends the test, which then names it.
pub fn goes<R: Files + Print + Threads + Wait + Abort + Sync>(rt: &R, alloc: Global, script: &str) {
    let call = |words: &[String], shelf: &mut MemShelf, out: &mut MemSink, gate: &TestGate| -> Status {
        status_of(rt, alloc, words, shelf, out, gate)
    };
    let wrong = first_wrong(alloc, &call, script);
    assert!(rt; wrong.is_empty(), "{wrong}");
}

/// Whether a call by the words of a line is done, over a shelf of the test's own.
pub fn is_done_over<R: Files + Print + Threads + Wait + Sync, S: Shelf, G: Gate>(
    rt: &R,
    alloc: Global,
    line: &str,
    shelf: &mut S,
    out: &mut MemSink,
    gate: &G,
) -> bool {
    match words_of(alloc, line) {
        Ok(words) => status_of(rt, alloc, words.as_slice(), shelf, out, gate) == Status::Done,
        Err(_) => false,
    }
}
