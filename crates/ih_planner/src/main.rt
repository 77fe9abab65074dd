//! The program for planners: the words of its command line, real files and standard output.
#![tactic(auto)]

use ih_arguments::words::run_with_words;
use ih_commands::{ClockWatch, run_planner};
use ih_endings::Status;
use ih_shelf::{FileShelf, OutSink};
use std::process::ExitCode;

fn main(rt: HostRuntime) -> ExitCode {
    let mut shelf = FileShelf::new();
    let mut out = OutSink::new();
    run_with_words(&rt, Status::OutOfMemory.code(), |words| {
        let watch = ClockWatch::new(&rt);
        run_planner(&rt, rt.alloc(), words, &mut shelf, &mut out, watch).code()
    })
}
