//! What workers do over one book, one after the other, and what comes of it.
//!
//! A part begins with a worker's number, whose replica is made new. Each further line has what is done or told, and then
//! what comes of it. An entry stands as its line in the journal.

ghost use Rattle.std.specs.Prelude.{◌≡◌};
ghost use Rattle.ih_plan.specs.Timetable.{IsPlanOf};
ghost use Rattle.ih_cellbook.specs.{Keeping.base_with, Replicas.IsReplicaIn};
ghost use Rattle.ih_search_tests.specs.Scenes.{IsGiven, IsOver};

use crate::tests::histories::{bill_after, is_exact};
use crate::tests::rounds::{advance, catch_up, is_priced, offer};
use crate::tests::words::pair;
use ih_cellbook::{Book, Buffer, News};
use ih_fixtures::{cut, number, word};
use ih_footprint::Numbering;
use ih_journal::{Entry, Options, Verdict, parse_line};
use ih_plan::{Move, Plan};
use ih_snapshot::Replica;
use ih_tables::Instance;
use ih_validate::bill;
use std::alloc::Global;

/// What a scene is played on: a ward, a timetable of it with which the search begins, and the search's options. Days
/// before `freeze` are frozen.
#[derive(Clone, Copy)]
pub(crate) struct Scene<'w> {
    pub(crate) inst: &'w Instance,
    pub(crate) start: &'w Plan,
    pub(crate) options: Options,
    pub(crate) freeze: u32,
}

/// Whether the entry at a place is this one.
pub(crate) fn is_at(entries: &[Entry], place: u32, entry: &Entry) -> bool {
    match entries.get(place as usize) {
        Some(there) => {
            (there.worker, there.number, there.again, there.seen)
                == (entry.worker, entry.number, entry.again, entry.seen)
                && there.mv == entry.mv
                && there.price == entry.price
                && there.verdict == entry.verdict
        }
        None => false,
    }
}

// Whether the worker may offer its move, and the entry of that has this line.
fn offers(scene: &Scene<'_>, book: &mut Book<'_>, replica: &mut Replica<'_>, line: &str) -> bool
    requires over { IsOver scene.now.inst.now.draft scene.now.options book.old.base }
    requires replica { IsReplicaIn book.old.base book.old.entries replica.old }
    ensures base { book.new.base ≡ book.old.base }
    ensures replica { IsReplicaIn book.old.base book.new.entries replica.new }
{
    match parse_line(scene.inst, &scene.options, line.as_bytes()) {
        Ok((place, entry)) => {
            offer(book, replica, &scene.options, &entry.mv, entry.number) == Some(entry.verdict)
                && is_at(book.entries(), place, &entry)
        }
        Err(_) => false,
    }
}

// Whether the worker prices the move of a line so.
fn prices(scene: &Scene<'_>, book: &Book<'_>, replica: &mut Replica<'_>, text: &str) -> bool
    requires instance { scene.now.inst.now.draft ≡ book.now.base.instance }
    requires replica { IsReplicaIn book.now.base book.now.entries replica.old }
    ensures { IsReplicaIn book.now.base book.now.entries replica.new }
{
    let (score, text) = word(text);
    let (reads, line) = word(text);
    match parse_line(scene.inst, &scene.options, line.as_bytes()) {
        Ok((_, entry)) => is_priced(scene.inst, book, replica, &entry, score, reads),
        Err(_) => false,
    }
}

// Whether so many moves that do nothing, each offered after a look, are accepted.
fn idles(
    options: &Options,
    book: &mut Book<'_>,
    replica: &mut Replica<'_>,
    news: &mut News,
    count: u32,
) -> bool
    requires options { options.now ≡ book.old.base.options }
    requires replica { IsReplicaIn book.old.base book.old.entries replica.old }
    ensures base { book.new.base ≡ book.old.base }
    ensures replica { IsReplicaIn book.old.base book.new.entries replica.new }
{
    for number in 0..count {
        if catch_up(book, replica, news) != (number, number) {
            return false;
        }
        if offer(book, replica, options, &Move::Idle, number) != Some(Verdict::Accepted) {
            return false;
        }
    }
    true
}

// Whether each cell up to the last has no version yet.
fn are_untouched(inst: &Instance, book: &Book<'_>) -> bool
    requires { inst.now.draft ≡ book.now.base.instance }
{
    for cell in 0..Numbering::of(inst).count() {
        if book.versions(cell) != 0 {
            return false;
        }
    }
    true
}

// Whether a cell has this version.
fn has_version(inst: &Instance, book: &Book<'_>, cell: u32, version: u32) -> bool
    requires { inst.now.draft ≡ book.now.base.instance }
{
    cell < Numbering::of(inst).count() && book.versions(cell) == version
}

// How many entries are copied from a place on, and how many there are.
fn copied(book: &Book<'_>, buffer: &mut Buffer, from: u32) -> (u32, u32) {
    if from as usize > book.entries().len() {
        return (0, 0);
    }
    let count = book.copy_since(from, buffer);
    (count, buffer.front())
}

// Whether the book tells this.
fn tells(alloc: Global, scene: &Scene<'_>, book: &Book<'_>, buffer: &mut Buffer, text: &str) -> bool
    requires start { IsPlanOf scene.now.inst.now.draft scene.now.start.now }
    requires instance { scene.now.inst.now.draft ≡ book.now.base.instance }
{
    let (verb, text) = word(text);
    let (first, text) = word(text);
    let first = number(first);
    match verb {
        "copies" => copied(book, buffer, first) == pair(text),
        "version" => has_version(scene.inst, book, first, number(text)),
        "untouched" => are_untouched(scene.inst, book),
        "best" => book.best() == Some((first, i64::from(number(text)))),
        "exact" => is_exact(alloc, scene.inst, scene.start, book, first),
        "start" => {
            bill_after(alloc, scene.inst, scene.start, book, first)
                == Some(bill(scene.inst, scene.start))
        }
        _ => false,
    }
}

// Whether a line comes out so.
fn steps(
    alloc: Global,
    scene: &Scene<'_>,
    book: &mut Book<'_>,
    replica: &mut Replica<'_>,
    buffer: &mut Buffer,
    news: &mut News,
    line: &str,
) -> bool
    requires start { IsPlanOf scene.now.inst.now.draft scene.now.start.now }
    requires over { IsOver scene.now.inst.now.draft scene.now.options book.old.base }
    requires replica { IsReplicaIn book.old.base book.old.entries replica.old }
    ensures base { book.new.base ≡ book.old.base }
    ensures replica { IsReplicaIn book.old.base book.new.entries replica.new }
{
    let (verb, text) = word(line);
    match verb {
        "offers" => offers(scene, book, replica, text),
        "prices" => prices(scene, book, replica, text),
        "idles" => idles(&scene.options, book, replica, news, number(text)),
        "looks" => catch_up(book, replica, news) == pair(text),
        "follows" => advance(book, replica, buffer) == pair(text),
        _ => tells(alloc, scene, book, buffer, line),
    }
}

// Whether each of some lines comes out so.
fn step_all(
    alloc: Global,
    scene: &Scene<'_>,
    book: &mut Book<'_>,
    replica: &mut Replica<'_>,
    buffer: &mut Buffer,
    news: &mut News,
    lines: &str,
) -> bool
    requires start { IsPlanOf scene.now.inst.now.draft scene.now.start.now }
    requires over { IsOver scene.now.inst.now.draft scene.now.options book.old.base }
    requires replica { IsReplicaIn book.old.base book.old.entries replica.old }
    ensures { book.new.base ≡ book.old.base }
{
    for line in lines.split('\n') {
        if !steps(alloc, scene, book, replica, buffer, news, line) {
            return false;
        }
    }
    true
}

// Whether a part comes out so.
fn act(
    alloc: Global,
    scene: &Scene<'_>,
    book: &mut Book<'_>,
    buffer: &mut Buffer,
    news: &mut News,
    part: &str,
) -> bool
    requires given { IsGiven scene.now.inst.now.draft scene.now.start.now scene.now.options }
    requires base { book.old.base ≡ base_with scene.now.inst.now.draft scene.now.start.now scene.now.options scene.now.freeze }
    ensures { book.new.base ≡ book.old.base }
{
    let (worker, lines) = cut(part, "\n");
    match Replica::new(
        alloc,
        scene.inst,
        scene.start,
        &scene.options,
        scene.freeze,
        number(worker),
    ) {
        Ok(mut replica) => step_all(alloc, scene, book, &mut replica, buffer, news, lines),
        Err(_) => false,
    }
}

/// Whether each part comes out so.
pub(crate) fn act_all(
    alloc: Global,
    scene: &Scene<'_>,
    book: &mut Book<'_>,
    buffer: &mut Buffer,
    news: &mut News,
    parts: &str,
) -> bool
    requires given { IsGiven scene.now.inst.now.draft scene.now.start.now scene.now.options }
    requires base { book.old.base ≡ base_with scene.now.inst.now.draft scene.now.start.now scene.now.options scene.now.freeze }
{
    for part in parts.split("\n\n") {
        if !act(alloc, scene, book, buffer, news, part) {
            return false;
        }
    }
    true
}
