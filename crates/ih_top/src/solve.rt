//! What a search of single moves makes to be written and said.

ghost use Rattle.std.specs.Prelude.{IfOk};
ghost use Rattle.ih_top.specs.Below.Searches.{IsBase, base_given};
ghost use Rattle.ih_top.specs.{Outputs.IsOutput, Searches.of_moves};

use crate::output::{Output, best_of, seed_of};
use ih_cellbook::journal_text;
use ih_desk::Given;
use ih_shelf::Gate;
use ih_workers::search_by_moves;
use std::alloc::{AllocError, Global};
use std::sync::Wait;
use std::thread::Threads;

/// Searches, and makes the journal, and the solution and the report of the best.
pub fn make_output<R: Threads + Wait + Sync, G: Gate>(
    rt: &R,
    alloc: Global,
    given: &Given<'_>,
    gate: &G,
) -> Result<Output, AllocError>
    requires { IsBase (base_given given.now) }
    ensures { IfOk result (IsOutput of_moves (base_given given.now)) }
{
    // For the proof alone: the seed has 64 bits.
    let _seed = seed_of(&given.options);
    let book = search_by_moves(rt, alloc, given, gate)?;
    let entries = book.entries();
    let journal = journal_text(alloc, &given.options, entries)?;
    let best = best_of(alloc, given, entries, book.best())?;
    Ok(Output { journal, best })
}
