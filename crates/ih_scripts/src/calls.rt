//! Calls by the words of a line. Where memory runs out, what is asked for is not so.

use crate::changing::lay;
use crate::gates::TestGate;
use crate::texts::are_lines;
use ih_endings::Status;
use ih_shelf::{MemShelf, MemSink};
use std::alloc::{AllocError, Global};

/// The words of a line.
pub fn words_of(alloc: Global, line: &str) -> Result<Vec<String>, AllocError> {
    let mut words = Vec::new(alloc);
    for word in line.split_whitespace() {
        words.push(String::from_str(alloc, word)?)?;
    }
    Ok(words)
}

/// The program that is called.
#[derive(Drop)]
pub(crate) struct Program<'a, F> {
    pub(crate) alloc: Global,
    pub(crate) call: &'a F,
}

impl<'a, F: Fn(&[String], &mut MemShelf, &mut MemSink, &TestGate) -> Status> Program<'a, F> {
    /// Whether a call by the words of a line ends with the status of this code, past this gate.
    pub(crate) fn exits_past(
        &self,
        line: &str,
        shelf: &mut MemShelf,
        out: &mut MemSink,
        gate: &TestGate,
        code: u64,
    ) -> bool
        requires { F.IsAlwaysCallable self.now.call.now }
    {
        match words_of(self.alloc, line) {
            Ok(words) => u64::from((self.call)(words.as_slice(), shelf, out, gate).code()) == code,
            Err(_) => false,
        }
    }

    // Whether a call by the words of a line ends with the status of this code, past a gate that does nothing.
    fn exits(&self, line: &str, shelf: &mut MemShelf, out: &mut MemSink, code: u64) -> bool
        requires { F.IsAlwaysCallable self.now.call.now }
    {
        self.exits_past(line, shelf, out, &TestGate::Open, code)
    }

    /// Whether a call ends with the status of this code and says these lines, in any number of puts.
    pub(crate) fn says(&self, line: &str, shelf: &mut MemShelf, code: u64, text: &str) -> bool
        requires { F.IsAlwaysCallable self.now.call.now }
    {
        let mut out = MemSink::new(self.alloc);
        self.exits(line, shelf, &mut out, code) && are_lines(self.alloc, out.bytes(), text)
    }

    /// Whether a call whose put of this number fails ends with the status of this code and has said these lines.
    pub(crate) fn is_cut_off(
        &self,
        line: &str,
        shelf: &mut MemShelf,
        put: u64,
        code: u64,
        text: &str,
    ) -> bool
        requires { F.IsAlwaysCallable self.now.call.now }
    {
        let mut out = MemSink::new(self.alloc);
        out.fail_put(put).is_ok()
            && self.exits(line, shelf, &mut out, code)
            && are_lines(self.alloc, out.bytes(), text)
    }

    /// Whether two calls are done and say the same.
    pub(crate) fn are_alike(&self, shelf: &mut MemShelf, first: &str, second: &str) -> bool
        requires { F.IsAlwaysCallable self.now.call.now }
    {
        let mut out = MemSink::new(self.alloc);
        let mut other = MemSink::new(self.alloc);
        self.exits(first, shelf, &mut out, 0)
            && self.exits(second, shelf, &mut other, 0)
            && out.bytes() == other.bytes()
    }

    /// Whether a call on the two patients, of whom the first is admitted, is done past this gate and says these lines,
    /// and then all went well at the gate.
    pub(crate) fn is_done_past(
        &self,
        line: &str,
        shelf: &mut MemShelf,
        gate: &TestGate,
        text: &str,
    ) -> bool
        requires { F.IsAlwaysCallable self.now.call.now }
    {
        let mut out = MemSink::new(self.alloc);
        lay(shelf, "two", "admitted").is_ok()
            && self.exits_past(line, shelf, &mut out, gate, 0)
            && are_lines(self.alloc, out.bytes(), text)
            && gate.is_well()
    }
}
