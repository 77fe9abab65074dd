//! The program whose calls are tried.

use ih_commands::{TestWatch, run_planner};
use ih_endings::Status;
use ih_scripts::{TestGate, first_wrong};
use ih_shelf::{MemShelf, MemSink};
use std::alloc::Global;
use std::process::Abort;
use std::rt::Files;
use std::sync::Wait;
use std::thread::Threads;

// The status of a call by these words, by this watch. Nothing is promised of it here, so that no test is proved over
// what `run_planner` is.
fn status_of<R: Files + Print + Threads + Wait + Sync>(
    rt: &R,
    alloc: Global,
    words: &[String],
    shelf: &mut MemShelf,
    out: &mut MemSink,
    watch: TestWatch,
) -> Status {
    run_planner(rt, alloc, words, shelf, out, watch)
}

/// Tries a script, from no files on. The first event that doesn't come out so ends the test, which then names it.
pub fn goes<R: Files + Print + Threads + Wait + Abort + Sync>(rt: &R, alloc: Global, script: &str) {
    goes_by(rt, alloc, TestWatch::every(100_000), script);
}

/// Tries a script, from no files on, where each call has this watch. The first event that doesn't come out so ends
/// the test, which then names it.
pub fn goes_by<R: Files + Print + Threads + Wait + Abort + Sync>(
    rt: &R,
    alloc: Global,
    watch: TestWatch,
    script: &str,
) {
    let call = |words: &[String], shelf: &mut MemShelf, out: &mut MemSink, _gate: &TestGate| -> Status {
        status_of(rt, alloc, words, shelf, out, watch)
    };
    let wrong = first_wrong(alloc, &call, script);
    assert!(rt; wrong.is_empty(), "{wrong}");
}
