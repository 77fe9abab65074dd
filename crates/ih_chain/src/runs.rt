//! What a search by chains has made: its entries, their best and their journal.

ghost use Rattle.std.specs.Prelude.{◌≡◌, ◌≤◌, All, IfOk, IfSome, length, option_map, take};
ghost use Rattle.ih_plan.specs.{Series.AreMoves, Timetable.IsPlanOf};
ghost use Rattle.ih_journal.specs.{History.after_entries, Legal.IsFull};
ghost use Rattle.ih_cellbook.specs.Keeping.{base_with};
ghost use Rattle.ih_chain.specs.{Entries.chain_tries, Runs.IsRunOf};

use crate::entries::ChainEntry;
use crate::texts::chain_journal_text;
use ih_cellbook::{Book, plan_at};
use ih_journal::Options;
use ih_plan::Plan;
use ih_tables::Instance;
use std::alloc::{AllocError, Global};
use std::marker::Model;

/// A finished search by chains.
#[derive(Drop)]
pub struct ChainRun {
    options: Options,
    // How many moves each chain has.
    each: u32,
    entries: Vec<ChainEntry>,
    // The place and the cost of the best.
    best: Option<(u32, i64)>,
    // The timetable there.
    plan: Option<Plan>,
}

impl Model for ChainRun {
    ghost use Rattle.std.specs.Prelude.{◌<◌, ◌^◌, length};
    ghost use Rattle.ih_chain.specs.Runs.{ChainRunState};

    ghost Value = { ChainRunState };

    ghost view = { λ r. record {
      options = r.options;
      each = r.each;
      entries = r.entries.items;
      best = r.best;
      plan = r.plan;
    } };

    ghost invariant = { λ r. length r.entries.items < 2 ^ 31 };
}

impl ChainRun {
    ghost use Rattle.ih_chain.specs.Texts.{chain_journal};

    /// The entries, in order.
    pub fn entries(&self) -> &[ChainEntry]
        ensures { result.now ≡ self.now.entries }
    {
        self.entries.as_slice()
    }

    /// The place and the cost of the first of the cheapest feasible timetables: place k is that after k entries. None
    /// exactly where no timetable of the history is feasible.
    pub fn best(&self) -> Option<(u32, i64)>
        ensures { result ≡ self.now.best }
    {
        self.best
    }

    /// That timetable.
    pub fn best_plan(&self, alloc: Global) -> Result<Option<Plan>, AllocError>
        ensures { IfOk result (λ plan. plan ≡ self.now.plan) }
    {
        match &self.plan {
            None => Ok(None),
            Some(plan) => Ok(Some(plan.try_clone(alloc)?)),
        }
    }

    /// The journal.
    pub fn text(&self, alloc: Global) -> Result<Vec<u8>, AllocError>
        ensures { IfOk result (λ text. text.items ≡ chain_journal self.now.options self.now.each self.now.entries) }
    {
        chain_journal_text(alloc, &self.options, self.each, self.entries.as_slice())
    }
}

// The timetable at the place of the best, where there is one.
fn best_plan(
    alloc: Global,
    inst: &Instance,
    start: &Plan,
    entries: &[ChainEntry],
    best: Option<(u32, i64)>,
) -> Result<Option<Plan>, AllocError>
    requires start { IsPlanOf inst.now.draft start.now }
    requires inside { IfSome best (λ k. k.0 ≤ length entries.now) }
    requires moves { All (λ e. AreMoves inst.now.draft e.moves) (chain_tries entries.now) }
    ensures made { IfOk result
        (λ plan. plan ≡ option_map
        (λ k. after_entries inst.now.draft start.now (take k.0 (chain_tries entries.now))) best) }
    ensures fits { IfOk result (λ plan. IfSome plan (IsPlanOf inst.now.draft)) }
{
    match best {
        None => Ok(None),
        Some((place, _)) => Ok(Some(plan_at(alloc, inst, start, entries, place)?)),
    }
}

/// The run whose history a book has. It takes the entries over into memory of their own.
pub(crate) fn run_of(
    alloc: Global,
    inst: &Instance,
    start: &Plan,
    options: &Options,
    each: u32,
    book: &Book<'_, ChainEntry>,
) -> Result<ChainRun, AllocError>
    requires base { book.now.base ≡ base_with inst.now.draft start.now options.now 0 }
    requires full { IsFull (base_with inst.now.draft start.now options.now 0) each book.now.entries }
    ensures { IfOk result (IsRunOf (base_with inst.now.draft start.now options.now 0) each) }
{
    let entries = book.entries();
    let best = book.best();
    let plan = best_plan(alloc, inst, start, entries, best)?;
    Ok(ChainRun {
        options: *options,
        each,
        entries: Vec::from_slice(alloc, entries)?,
        best,
        plan,
    })
}
