//! The search by chains: workers side by side, each with draws of its own, of which so many in a row are tried as one.

ghost use Rattle.std.specs.Prelude.{◌≡◌, ◌≤◌, ◌*◌, IfOk};
ghost use Rattle.ih_plan.specs.Timetable.{IsPlanOf};
ghost use Rattle.ih_journal.specs.Settings.{IsLawful, most_entries};
ghost use Rattle.ih_cellbook.specs.Keeping.{base_with};
ghost use Rattle.ih_chain.specs.Runs.{IsRunOf};

use crate::entries::ChainEntry;
use crate::runs::{ChainRun, run_of};
use ih_desk::{Given, search_at_desk};
use ih_journal::{MAX_ENTRIES, Options};
use ih_plan::Plan;
use ih_shelf::Gate;
use ih_snapshot::Replica;
use ih_tables::Instance;
use std::alloc::{AllocError, Global};
use std::sync::Wait;
use std::thread::Threads;

/// The whole search by chains of so many moves from a start: each worker's draws, chain by chain, in order. No stale
/// chain is tried again, and nothing is frozen.
pub fn run_chains<R: Threads + Wait + Sync, G: Gate>(
    rt: &R,
    alloc: Global,
    inst: &Instance,
    start: &Plan,
    options: &Options,
    length: u32,
    gate: &G,
) -> Result<ChainRun, AllocError>
    requires start { IsPlanOf inst.now.draft start.now }
    requires lawful { IsLawful options.now }
    requires once { options.now.retries ≡ 0 }
    requires some { 1 ≤ length }
    requires short { length ≤ 8 }
    requires few { most_entries options.now * length ≤ MAX_ENTRIES }
    ensures { IfOk result (IsRunOf (base_with inst.now.draft start.now options.now 0) length) }
{
    let given = Given {
        inst,
        start,
        options: *options,
        freeze: 0,
    };
    let book = search_at_desk::<Replica<'_, ChainEntry>, R, G>(rt, alloc, &given, length, gate)?;
    run_of(alloc, inst, start, options, length, &book)
}
