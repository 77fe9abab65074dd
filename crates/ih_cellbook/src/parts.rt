//! What a book keeps: the entries of all workers, and what is needed to judge the next one.

ghost use Rattle.std.specs.Prelude.{◌≡◌, ◌<◌, ◌≤◌, [], length, slice_index, vec_capacity, Some, IfOk};
ghost use Rattle.ih_journal.specs.{Attempts.try_after, Settings.IsLawful, Settings.most_entries};
ghost use Rattle.ih_cellbook.specs.{Offered.Offered, Offers.entry_with};

use crate::entry_kinds::{Logged, Offers};
use ih_journal::{Options, Verdict};
use ih_plan::Plan;
use ih_tables::{Bill, Instance};
use std::alloc::{AllocError, Global};

/// The parts of a book: what it was opened with, its entries, and what follows from them.
#[derive(Drop)]
pub(crate) struct BookParts<'a, E: Logged> {
    pub(crate) inst: &'a Instance,
    pub(crate) start: &'a Plan,
    pub(crate) options: Options,
    pub(crate) freeze: u32,
    // Room is reserved for all entries of the search.
    pub(crate) entries: Vec<E>,
    // Each cell's version, by number.
    pub(crate) counters: Vec<u32>,
    // How often each worker's next attempt was tried before.
    pub(crate) again: Vec<u32>,
    // The bill of the timetable after all entries.
    pub(crate) bill: Bill,
    // The place and the cost of the first cheapest feasible timetable.
    pub(crate) best: Option<(u32, i64)>,
}

// How often the attempt of an offer, its worker's next one, was tried before.
pub(crate) fn again_of<O: Offers>(again: &Vec<u32>, offer: &O) -> u32
    requires { (O.offered offer.now).worker < length again.now.items }
    ensures { result ≡ slice_index again.now.items (O.offered offer.now).worker }
{
    again[offer.worker() as usize]
}

// How often a worker's next attempt was tried before, once an entry with these stands.
pub(crate) fn again_after(options: &Options, again: u32, verdict: &Verdict) -> u32
    ensures { (o : Offered) → result ≡ (try_after options.now (Some (entry_with o again verdict.now))).again }
{
    match *verdict {
        Verdict::Stale { .. } if again < options.retries => again + 1,
        _ => 0,
    }
}

// The entry of an offer, with how often it was tried before and its verdict.
pub(crate) fn entry_from<E: Logged>(offer: &E::Offer, again: u32, verdict: Verdict) -> E
    requires { again ≤ E.most_retries }
    ensures { E.tried result ≡ entry_with (E.Offer.offered offer.now) again verdict }
{
    E::made(
        offer.worker(),
        offer.number(),
        again,
        offer.seen(),
        &offer.attempt(),
        &offer.price(),
        verdict,
    )
}

// Of how many entries the room is written ahead. A lone worker has nobody wait while the system gives it pages.
fn touched_ahead(options: &Options, attempts: usize) -> usize
    ensures { result ≤ attempts }
{
    if options.workers == 1 { 0 } else { attempts }
}

// Room for `most` entries, with none in it. That of the first of them is written once here, so that the system gives
// its pages now, and not one by one while a worker holds the book.
fn room_for<E: Logged>(alloc: Global, first: usize, most: usize) -> Result<Vec<E>, AllocError>
    requires { first ≤ most }
    ensures none { IfOk result (λ v. v.items ≡ []) }
    ensures room { IfOk result (λ v. vec_capacity v ≡ most) }
{
    let mut entries = Vec::with_capacity(alloc, most)?;
    for _ in 0..first {
        entries.push_reserved(E::blank());
    }
    entries.clear();
    Ok(entries)
}

// Room for all entries of a search, with none in it.
pub(crate) fn room_of<E: Logged>(alloc: Global, options: &Options) -> Result<Vec<E>, AllocError>
    requires { IsLawful options.now }
    ensures none { IfOk result (λ v. v.items ≡ []) }
    ensures room { IfOk result (λ v. most_entries options.now ≤ vec_capacity v) }
{
    // As many as there are where no attempt is stale.
    let attempts = options.workers as usize * options.moves as usize;
    room_for(
        alloc,
        touched_ahead(options, attempts),
        attempts * (options.retries as usize + 1),
    )
}
