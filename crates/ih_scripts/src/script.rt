//! The events of a script, and whether each comes out so.

use crate::calls::Program;
use crate::changing::{add, change, lay, store_spaces};
use crate::counting::CountingGate;
use crate::gates::TestGate;
use crate::held::{are_same, has_count, has_sum, have_same_lines, holds, holds_lines, shows};
use crate::meeting::{MeetingGate, began_together};
use crate::pairs::has_pairs;
use crate::texts::{meant, number};
use ih_endings::Status;
use ih_fixtures::cut;
use ih_shelf::{HoldGate, MemShelf, MemSink};
use std::alloc::Global;

// The most turns for which a gate holds a worker.
const TURNS: u64 = 100_000_000;

// An event: its verb, the first word behind it, the other words of that line, and the text below.
#[derive(Clone, Copy)]
struct Event<'t> {
    verb: &'t str,
    name: &'t str,
    rest: &'t str,
    text: &'t str,
}

// What is so of a name, where a number is said.
fn counts(shelf: &MemShelf, event: Event<'_>, count: u64) -> bool {
    match event.verb {
        "lines" => has_count(shelf, event.name, count),
        "sum" => has_sum(shelf, event.name, count),
        _ => false,
    }
}

// Whether the shelf is so.
fn is_so(alloc: Global, shelf: &MemShelf, event: Event<'_>) -> bool {
    match event.verb {
        "is" => holds(shelf, event.name, event.text),
        "has" => holds_lines(alloc, shelf, event.name, event.text),
        "shows" => shows(shelf, event.name, event.text),
        "no" => shelf.get(event.name).is_none(),
        "same" => are_same(shelf, event.name, event.rest),
        "same-lines" => have_same_lines(shelf, event.name, event.rest),
        "pairs" => has_pairs(shelf, event.name),
        "together" => began_together(shelf, number(event.name).unwrap_or(0)),
        "#" => true,
        _ => match number(event.rest) {
            Some(count) => counts(shelf, event, count),
            None => false,
        },
    }
}

// Whether the files are laid out.
fn is_laid(alloc: Global, shelf: &mut MemShelf, event: Event<'_>) -> bool {
    match event.verb {
        "anew" => {
            *shelf = MemShelf::new(alloc);
            true
        }
        "store" => shelf
            .store(event.name, meant(event.text).as_bytes())
            .is_ok(),
        "lay" => lay(shelf, event.name, event.rest).is_ok(),
        "add" => add(alloc, shelf, event.name, event.text).is_ok(),
        "change" => {
            let (from, to) = cut(event.text, "\n");
            change(alloc, shelf, event.name, event.rest, from, to)
        }
        "spaces" => store_spaces(alloc, shelf, event.name, number(event.rest).unwrap_or(0)).is_ok(),
        "fail-read" => shelf.fail_read(number(event.name).unwrap_or(0)).is_ok(),
        "fail-write" => {
            let (nth, kept) = (
                number(event.name).unwrap_or(0),
                number(event.rest).unwrap_or(0),
            );
            shelf.fail_write(nth, kept).is_ok()
        }
        _ => is_so(alloc, shelf, event),
    }
}

impl<'a, F: Fn(&[String], &mut MemShelf, &mut MemSink, &TestGate) -> Status> Program<'a, F> {
    // Whether each of these calls ends with this status and says so.
    fn each_ends(&self, shelf: &mut MemShelf, lines: &str, code: u64, text: &str) -> bool
        requires { F.IsAlwaysCallable self.now.call.now }
    {
        for line in lines.split('\n') {
            if !self.says(line, shelf, code, text) {
                return false;
            }
        }
        true
    }

    // Whether the call ends so on each change of a file: what stands there, what is put in its place, and what is said.
    fn are_answered(&self, shelf: &mut MemShelf, event: Event<'_>) -> bool
        requires { F.IsAlwaysCallable self.now.call.now }
    {
        let (file, rest) = cut(event.rest, " ");
        let (code, line) = cut(rest, " ");
        let code = number(code).unwrap_or(99);
        for row in event.text.split('\n') {
            let (from, rest) = cut(row, " | ");
            let (to, answer) = cut(rest, " | ");
            if !change(self.alloc, shelf, event.name, file, from, to)
                || !self.is_cut_off(line, shelf, 2, code, answer)
            {
                return false;
            }
        }
        true
    }

    // Whether each search and this replay of its journal say the same text and leave the same solution.
    fn are_replayed(&self, shelf: &mut MemShelf, replay: &str, searches: &str) -> bool
        requires { F.IsAlwaysCallable self.now.call.now }
    {
        for search in searches.split('\n') {
            if !self.are_alike(shelf, search, replay) || !are_same(shelf, "p", "o") {
                return false;
            }
        }
        true
    }

    // Whether a call comes out so past a gate of this number.
    fn passes(&self, shelf: &mut MemShelf, event: Event<'_>, count: u64) -> bool
        requires { F.IsAlwaysCallable self.now.call.now }
    {
        let gate = match event.verb {
            "hold" => TestGate::Hold(HoldGate::new(TURNS, u32::try_from(count).unwrap_or(0))),
            "meet" => TestGate::Meeting(MeetingGate::new(count)),
            _ => TestGate::Counting(CountingGate::new(), count),
        };
        self.is_done_past(event.rest, shelf, &gate, event.text)
    }

    // Whether a call with a number before it comes out so.
    fn is_counted(&self, shelf: &mut MemShelf, event: Event<'_>, count: u64) -> bool
        requires { F.IsAlwaysCallable self.now.call.now }
    {
        match event.verb {
            "says" => self.says(event.rest, shelf, count, event.text),
            "each" => self.each_ends(shelf, event.text, count, event.rest),
            "cut" => {
                let (code, line) = cut(event.rest, " ");
                self.is_cut_off(line, shelf, count, number(code).unwrap_or(99), event.text)
            }
            _ => self.passes(shelf, event, count),
        }
    }

    // Whether calls, or what is done without one, come out so.
    fn comes_out(&self, shelf: &mut MemShelf, event: Event<'_>) -> bool
        requires { F.IsAlwaysCallable self.now.call.now }
    {
        let (first, others) = cut(event.text, "\n");
        match event.verb {
            "alike" => self.are_alike(shelf, first, others),
            "replays" => self.are_replayed(shelf, first, others),
            "changes" => self.are_answered(shelf, event),
            "says" | "each" | "cut" | "hold" | "meet" | "pass" => match number(event.name) {
                Some(count) => self.is_counted(shelf, event, count),
                None => false,
            },
            _ => is_laid(self.alloc, shelf, event),
        }
    }

    // Whether the event comes out so.
    fn takes(&self, shelf: &mut MemShelf, event: &str) -> bool
        requires { F.IsAlwaysCallable self.now.call.now }
    {
        let (head, text) = cut(event, "\n");
        let (verb, words) = cut(head, " ");
        let (name, rest) = cut(words, " ");
        match number(verb) {
            Some(code) => self.is_cut_off(words, shelf, 2, code, text),
            None => self.comes_out(
                shelf,
                Event {
                    verb,
                    name,
                    rest,
                    text,
                },
            ),
        }
    }
}

/// The first event that doesn't come out so, from no files on, or nothing.
pub fn first_wrong<'s, F: Fn(&[String], &mut MemShelf, &mut MemSink, &TestGate) -> Status>(
    alloc: Global,
    call: &F,
    script: &'s str,
) -> &'s str
    requires { F.IsAlwaysCallable call.now }
{
    let program = Program { alloc, call };
    let mut shelf = MemShelf::new(alloc);
    for event in script.trim_end().split("\n> ") {
        if !event.is_empty() && !program.takes(&mut shelf, event) {
            return event;
        }
    }
    ""
}
