//! Rounds of searches, one after the other.

ghost use Rattle.std.specs.Prelude.{◌≡◌, IfOk, None};
ghost use Rattle.ih_plan.specs.Timetable.{IsPlanOf};
ghost use Rattle.ih_journal.specs.{Legal.IsFull, Settings.IsLawful, Tried.tries};
ghost use Rattle.ih_cellbook.specs.Keeping.{base_with};
ghost use Rattle.ih_rounds.specs.{Answers.Gives, Ends.Ends, Ends.better_of, Ends.end_with, Ends.keeps};

use crate::asking::{Asked, OfClosure, OfSearcher, SearchBy};
use crate::round::{options_in, search_round};
use crate::searcher::Searcher;
use ih_journal::{Entry, Options};
use ih_plan::Plan;
use ih_tables::Instance;
use std::alloc::{AllocError, Global};
use std::sync::Wait;
use std::thread::Threads;

/// How rounds end.
#[derive(Drop)]
pub enum RoundsEnd {
    /// The first cheapest feasible timetable of all rounds, with its round and its place there, and how many entries
    /// that round has.
    Found {
        round: u32,
        place: u32,
        count: u32,
        plan: Plan,
    },
    /// No timetable of any round is feasible.
    NoneFound,
}

// The best so far, with its cost.
#[derive(Drop)]
pub(crate) struct Held {
    pub(crate) round: u32,
    pub(crate) place: u32,
    pub(crate) count: u32,
    pub(crate) cost: i64,
    pub(crate) plan: Plan,
}

// Whether the best so far stays, where a later one costs so much.
fn keeps(best: &Option<Held>, cost: i64) -> bool
    ensures { result ≡ keeps best.now cost }
{
    match best {
        None => false,
        Some(held) => held.cost <= cost,
    }
}

// The best so far, or that of a later round, where it is cheaper.
fn better(
    alloc: Global,
    best: Option<Held>,
    round: u32,
    found: Option<(u32, i64)>,
    count: u32,
    plan: &Plan,
) -> Result<Option<Held>, AllocError>
    ensures { IfOk result (λ r. r ≡ better_of best round found count plan.now) }
{
    let Some((place, cost)) = found else {
        return Ok(best);
    };
    if keeps(&best, cost) {
        return Ok(best);
    }
    Ok(Some(Held {
        round,
        place,
        count,
        cost,
        plan: plan.try_clone(alloc)?,
    }))
}

fn end_with(best: Option<Held>) -> RoundsEnd
    ensures { result ≡ end_with best }
{
    match best {
        None => RoundsEnd::NoneFound,
        Some(held) => {
            let Held {
                round,
                place,
                count,
                cost: _,
                plan,
            } = held;
            RoundsEnd::Found {
                round,
                place,
                count,
                plan,
            }
        }
    }
}

// Rounds of whoever is asked for their searches.
fn rounds_of<R: Threads + Wait + Sync, K, S: Asked<K>>(
    rt: &R,
    alloc: Global,
    inst: &Instance,
    start: &Plan,
    options: &Options,
    rounds: u32,
    searcher: &mut S,
    journal: &mut Vec<u8>,
) -> Result<RoundsEnd, AllocError>
    requires ready { S.ready searcher.old }
    requires start { IsPlanOf inst.now.draft start.now }
    requires lawful { IsLawful options.now }
    requires once { options.now.retries ≡ 0 }
    ensures { IfOk result (Ends (base_with inst.entry.now.draft start.entry.now options.entry.now 0) rounds
        (S.told searcher.old) (S.told searcher.new) journal.old.items journal.new.items) }
{
    let mut next = start.try_clone(alloc)?;
    let mut best = None;
    for round in 0..rounds {
        let own = options_in(options, round);
        let outcome = search_round::<R, K, S>(rt, alloc, inst, &next, &own, searcher, journal)?;
        best = better(
            alloc,
            best,
            round,
            outcome.found,
            outcome.count,
            &outcome.next,
        )?;
        next = outcome.next;
    }
    Ok(end_with(best))
}

/// Searches so many times, each time from the best timetable of the search before, or from its last where none is
/// feasible, and appends the journals. The seed of each search is 64 further than that of the one before it. Where
/// memory runs out, the journal is to be dropped.
pub fn rounds<R: Threads + Wait + Sync, S: Searcher>(
    rt: &R,
    alloc: Global,
    inst: &Instance,
    start: &Plan,
    options: &Options,
    rounds: u32,
    searcher: &mut S,
    journal: &mut Vec<u8>,
) -> Result<RoundsEnd, AllocError>
    requires start { IsPlanOf inst.now.draft start.now }
    requires lawful { IsLawful options.now }
    requires once { options.now.retries ≡ 0 }
    ensures { IfOk result (Ends (base_with inst.entry.now.draft start.entry.now options.entry.now 0) rounds
        (S.answers searcher.old) (S.answers searcher.new) journal.old.items journal.new.items) }
{
    rounds_of::<R, OfSearcher, S>(rt, alloc, inst, start, options, rounds, searcher, journal)
}

/// Searches so many times by a closure, each from the best timetable before, or the last where none is feasible, with
/// a seed 64 further, and appends the journals; where memory runs out, drop them. Threads may rest on no bound of an
/// impl, so whoever searches with a gate of any type hands in a closure that captures it.
pub fn rounds_by<
    R: Threads + Wait + Sync,
    F: Fn(Global, &Instance, &Plan, &Options) -> Result<Vec<Entry>, AllocError> + Drop,
>(
    rt: &R,
    alloc: Global,
    inst: &Instance,
    start: &Plan,
    options: &Options,
    rounds: u32,
    search: F,
    journal: &mut Vec<u8>,
) -> Result<RoundsEnd, AllocError>
    requires searches { Gives (λ a i p o. F.pre search a i p o) (λ a i p o r. F.post search a i p o r)
        (λ i p o. IsPlanOf i.now.draft p.now × IsLawful o.now × (o.now.retries ≡ 0))
        (λ i p o r. IfOk r (λ v. IsFull (base_with i.now.draft p.now o.now 0) 1 (tries v.items))) }
    requires start { IsPlanOf inst.now.draft start.now }
    requires lawful { IsLawful options.now }
    requires once { options.now.retries ≡ 0 }
    ensures { IfOk result (Ends (base_with inst.entry.now.draft start.entry.now options.entry.now 0) rounds None None
        journal.old.items journal.new.items) }
{
    let mut searcher = SearchBy { search };
    rounds_of::<R, OfClosure, SearchBy<F>>(
        rt,
        alloc,
        inst,
        start,
        options,
        rounds,
        &mut searcher,
        journal,
    )
}
