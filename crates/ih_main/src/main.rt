//! The program: the words of its command line, real files and standard output.
#![tactic(auto)]

use ih_arguments::words::run_with_words;
use ih_shelf::{FileShelf, OpenGate, OutSink};
use ih_top::{Status, run};
use std::process::ExitCode;

fn main(rt: HostRuntime) -> ExitCode {
    let mut shelf = FileShelf::new();
    let mut out = OutSink::new();
    run_with_words(&rt, Status::OutOfMemory.code(), |words| {
        run(&rt, rt.alloc(), words, &mut shelf, &mut out, &OpenGate).code()
    })
}
