//! What searches in rounds make to be written and said.

ghost use Rattle.std.specs.Prelude.{◌≡◌, IfOk, string_bytes};
ghost use Rattle.ih_top.specs.Below.Wards.{IsPlanOf, bill_of};
ghost use Rattle.ih_top.specs.Below.Searches.{IsBase, IsLawful, base_given};
ghost use Rattle.ih_top.specs.Rounds.{IsRoundSaid, FitsEnd, round_line, round_report};
ghost use Rattle.ih_top.specs.{Outputs.IsOutput, Rounds.IsFullFrom, Rounds.of_rounds};

use crate::output::{BestOutput, Output, seed_of, with_report};
use ih_cellbook::accepted_prices_are_exact;
use ih_desk::Given;
use ih_journal::{Entry, Options};
use ih_plan::Plan;
use ih_rounds::{RoundsEnd, rounds_by};
use ih_shelf::Gate;
use ih_solution::write_solution;
use ih_tables::Instance;
use ih_workers::search_by_moves;
use itoa::Buffer;
use std::alloc::{AllocError, Global};
use std::sync::Wait;
use std::thread::Threads;

fn round_line(alloc: Global, round: u32, place: u32, entries: u32) -> Result<String, AllocError>
    ensures { IfOk result (λ s. string_bytes s ≡ round_line round place entries) }
{
    let mut first = Buffer::new();
    let mut second = Buffer::new();
    let mut third = Buffer::new();
    let place = first.format(place);
    let entries = second.format(entries);
    let round = third.format(round);
    format!(in alloc; "best {place} of {entries} in round {round}\n")
}

// The line of the best, and the report on its timetable.
fn round_report(
    alloc: Global,
    inst: &Instance,
    plan: &Plan,
    round: u32,
    place: u32,
    entries: u32,
) -> Result<Vec<u8>, AllocError>
    requires { IsPlanOf inst.now.draft plan.now }
    ensures { IfOk result (λ text. text.items
        ≡ round_report round place entries inst.now.draft.weights (bill_of inst.now.draft plan.now)) }
{
    let line = round_line(alloc, round, place, entries)?;
    with_report(alloc, line, inst, plan)
}

// The solution and the report of the best of all rounds, where they have one.
fn best_of_rounds(
    alloc: Global,
    inst: &Instance,
    end: &RoundsEnd,
) -> Result<Option<BestOutput>, AllocError>
    requires { FitsEnd inst.now.draft end.now }
    ensures { IfOk result (IsRoundSaid inst.now.draft end.now) }
{
    match end {
        RoundsEnd::NoneFound => Ok(None),
        RoundsEnd::Found {
            round,
            place,
            count,
            plan,
        } => Ok(Some(BestOutput {
            solution: write_solution(alloc, inst, plan)?,
            text: round_report(alloc, inst, plan, *round, *place, *count)?,
        })),
    }
}

/// The history of one search at a desk, in which nothing is frozen.
pub fn history_at_desk<R: Threads + Wait + Sync, G: Gate>(
    rt: &R,
    alloc: Global,
    inst: &Instance,
    start: &Plan,
    options: &Options,
    gate: &G,
) -> Result<Vec<Entry>, AllocError>
    requires start { IsPlanOf inst.now.draft start.now }
    requires lawful { IsLawful options.now }
    ensures { IfOk result (λ v. IsFullFrom inst.entry.now.draft start.entry.now options.entry.now v.items) }
{
    let given = Given {
        inst,
        start,
        options: *options,
        freeze: 0,
    };
    let book = search_by_moves(rt, alloc, &given, gate)?;
    let mut entries = Vec::new(alloc);
    entries.extend_from_slice(book.entries())?;
    Ok(entries)
}

/// Searches so many times at a desk, each time from the best of the search before, and makes the journals, and the
/// solution and the report of the best of all.
pub fn make_rounds_output<R: Threads + Wait + Sync, G: Gate>(
    rt: &R,
    alloc: Global,
    given: &Given<'_>,
    count: u32,
    gate: &G,
) -> Result<Output, AllocError>
    requires base { IsBase (base_given given.now) }
    requires once { given.now.options.retries ≡ 0 }
    requires unfrozen { given.now.freeze ≡ 0 }
    ensures { IfOk result (IsOutput (of_rounds count) (base_given given.entry.now)) }
{
    // For the proof alone: the seed has 64 bits, and accepted prices are exact.
    let _seed = seed_of(&given.options);
    accepted_prices_are_exact();
    let search = |alloc: Global, inst: &Instance, start: &Plan, options: &Options| -> Result<
        Vec<Entry>,
        AllocError,
    >
        requires { IsPlanOf inst.now.draft start.now × IsLawful options.now }
        ensures { IfOk result (λ v. IsFullFrom inst.entry.now.draft start.entry.now options.entry.now v.items) }
    { history_at_desk(rt, alloc, inst, start, options, gate) };
    let mut journal = Vec::new(alloc);
    let end = rounds_by(
        rt,
        alloc,
        given.inst,
        given.start,
        &given.options,
        count,
        search,
        &mut journal,
    )?;
    let best = best_of_rounds(alloc, given.inst, &end)?;
    Ok(Output { journal, best })
}
