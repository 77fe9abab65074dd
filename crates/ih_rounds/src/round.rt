//! One round: a search, its journal, and where it leads.

ghost use Rattle.std.specs.Prelude.{◌≡◌, IfOk};
ghost use Rattle.ih_plan.specs.Timetable.{IsPlanOf};
ghost use Rattle.ih_journal.specs.{declared.settings.Options.Options as Search_options, Settings.IsLawful};
ghost use Rattle.ih_cellbook.specs.Keeping.{base_with};
ghost use Rattle.ih_rounds.specs.{Rounds.options_in, Steps.HasRound, Steps.IsAnswer, Steps.LeadsOn, Steps.end_of};

use crate::asking::{Asked, Question};
use ih_cellbook::{best_in, plan_at, put_journal};
use ih_journal::{Entry, Options};
use ih_plan::Plan;
use ih_tables::Instance;
use ih_validate::bill;
use std::alloc::{AllocError, Global};
use std::sync::Wait;
use std::thread::Threads;

/// What a round comes to.
#[derive(Drop)]
pub(crate) struct RoundOutcome {
    /// The place and the cost of its best.
    pub(crate) found: Option<(u32, i64)>,
    /// How many entries it has.
    pub(crate) count: u32,
    /// Where the next one starts.
    pub(crate) next: Plan,
}

/// The options of a round: its seed is the first one's, 64 further for each round before it, wrapping.
pub(crate) fn options_in(options: &Options, round: u32) -> Options
    ensures { result ≡ options_in options.now round }
{
    Options {
        seed: options.seed.wrapping_add(64 * round as u64),
        workers: options.workers,
        moves: options.moves,
        heat: options.heat,
        hard: options.hard,
        retries: options.retries,
    }
}

// The place of the best, or the last.
fn end_of(found: Option<(u32, i64)>, count: u32) -> u32
    ensures { result ≡ end_of found count }
{
    match found {
        Some((place, _)) => place,
        None => count,
    }
}

// Where the round with this full history leads, whatever the options by which it was searched.
fn lead_on(
    alloc: Global,
    inst: &Instance,
    start: &Plan,
    entries: &[Entry],
) -> Result<RoundOutcome, AllocError>
    requires start { IsPlanOf inst.now.draft start.now }
    requires answered { (o : Search_options) × IsAnswer (base_with inst.now.draft start.now o 0) entries.now }
    ensures { (o : Search_options) → IsAnswer (base_with inst.now.draft start.now o 0) entries.now
        → IfOk result (LeadsOn (base_with inst.now.draft start.now o 0) entries.now) }
{
    let found = best_in(inst, &bill(inst, start), entries);
    let count = entries.len() as u32;
    let next = plan_at(alloc, inst, start, entries, end_of(found, count))?;
    Ok(RoundOutcome { found, count, next })
}

/// Searches once, and appends the journal. Where memory runs out, the journal is to be dropped.
pub(crate) fn search_round<R: Threads + Wait + Sync, K, S: Asked<K>>(
    rt: &R,
    alloc: Global,
    inst: &Instance,
    start: &Plan,
    options: &Options,
    searcher: &mut S,
    journal: &mut Vec<u8>,
) -> Result<RoundOutcome, AllocError>
    requires ready { S.ready searcher.old }
    requires start { IsPlanOf inst.now.draft start.now }
    requires lawful { IsLawful options.now }
    requires once { options.now.retries ≡ 0 }
    ensures round { IfOk result (HasRound (base_with inst.entry.now.draft start.entry.now options.entry.now 0)
        (S.told searcher.old) (S.told searcher.new) journal.old.items journal.new.items) }
    ensures ready { S.ready searcher.new }
{
    let asked = Question {
        inst,
        start,
        options,
    };
    let answer = searcher.ask(rt, alloc, &asked)?;
    let entries = answer.as_slice();
    put_journal(options, entries, journal)?;
    lead_on(alloc, inst, start, entries)
}
