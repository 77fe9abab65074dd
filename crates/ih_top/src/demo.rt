//! The command `demo`: a search on a generated instance, without files.

ghost use Rattle.std.specs.Prelude.{◌≡◌, ◌++◌, ℕ, IfOk, Ok, option_map, string_bytes};
ghost use Rattle.ih_top.specs.Below.Wards.{instance};
ghost use Rattle.ih_top.specs.Below.Endings.{Answers, HasFileCause};
ghost use Rattle.ih_top.specs.Below.Searches.{is_accepted, is_stale};
ghost use Rattle.ih_gen.specs.Generated.{generated};
ghost use Rattle.ih_top.specs.Demo.{DemoEnds, IsShown, demo_options};
ghost use Rattle.ih_top.specs.Texts.{counts_line, demo_line, is_declined, verdicts_of};

use crate::output::{BestOutput, best_of};
use ih_desk::Given;
use ih_endings::{Answer, Status, none_found, out_of_memory};
use ih_gen::generate;
use ih_instance::{InstanceError, read_instance};
use ih_journal::{Entry, Options, Verdict};
use ih_parfill::par_fill;
use ih_plan::Plan;
use ih_shelf::{Gate, OpenGate};
use ih_tables::Instance;
use ih_workers::search_by_moves;
use itoa::Buffer;
use std::alloc::{AllocError, Global};
use std::sync::Wait;
use std::thread::Threads;

// The weight of a broken hard rule in a score.
const HARD: u32 = 100_000;

fn demo_options(seed: u64) -> Options
    ensures { result ≡ demo_options seed }
{
    Options {
        seed,
        workers: 1,
        moves: 2_000,
        heat: 50,
        hard: HARD,
        retries: 0,
    }
}

fn count_accepted(entries: &[Entry]) -> usize
    ensures { result ≡ verdicts_of is_accepted entries.now }
{
    entries
        .iter()
        .filter(|e| matches!(e.verdict, Verdict::Accepted))
        .count()
}

fn count_declined(entries: &[Entry]) -> usize
    ensures { result ≡ verdicts_of is_declined entries.now }
{
    entries
        .iter()
        .filter(|e| matches!(e.verdict, Verdict::Declined))
        .count()
}

fn count_stale(entries: &[Entry]) -> usize
    ensures { result ≡ verdicts_of is_stale entries.now }
{
    entries
        .iter()
        .filter(|e| matches!(e.verdict, Verdict::Stale { .. }))
        .count()
}

fn demo_line(alloc: Global, seed: u64) -> Result<String, AllocError>
    ensures { IfOk result (λ s. string_bytes s ≡ demo_line seed) }
{
    let mut buffer = Buffer::new();
    let seed = buffer.format(seed);
    format!(in alloc; "demo {seed}\n")
}

// How many moves were accepted, declined and stale.
fn counts_line(alloc: Global, entries: &[Entry]) -> Result<String, AllocError>
    ensures { IfOk result (λ s. string_bytes s ≡ counts_line entries.now) }
{
    let mut first = Buffer::new();
    let mut second = Buffer::new();
    let mut third = Buffer::new();
    let accepted = first.format(count_accepted(entries));
    let declined = second.format(count_declined(entries));
    let stale = third.format(count_stale(entries));
    format!(in alloc; "accepted {accepted} declined {declined} stale {stale}\n")
}

// What is said of the search before its best.
fn demo_head(alloc: Global, seed: u64, entries: &[Entry]) -> Result<Vec<u8>, AllocError>
    ensures { IfOk result (λ text. text.items ≡ demo_line seed ++ counts_line entries.now) }
{
    let mut text = demo_line(alloc, seed)?.into_bytes();
    let line = counts_line(alloc, entries)?;
    text.extend_from_slice(line.as_bytes())?;
    Ok(text)
}

// What is said of the search and its best.
fn demo_said(
    alloc: Global,
    seed: u64,
    entries: &[Entry],
    best: &BestOutput,
) -> Result<Vec<u8>, AllocError>
    ensures { IfOk result
        (λ text. text.items ≡ (demo_line seed ++ counts_line entries.now) ++ best.now.text.items) }
{
    let mut text = demo_head(alloc, seed, entries)?;
    text.extend_from_slice(best.text.as_slice())?;
    Ok(text)
}

// The instance that the seed generates. The reader never refuses what is generated.
fn demo_instance(alloc: Global, seed: u64) -> Result<Box<Instance>, AllocError>
    ensures { IfOk result (λ i. instance (generated seed) ≡ Ok i.value.draft) }
{
    let text = generate(alloc, seed)?;
    match read_instance(alloc, text.as_slice()) {
        Ok(inst) => Ok(Box::new(alloc, inst)?),
        Err(InstanceError::Refused(_)) => unreachable!(),
        Err(InstanceError::OutOfMemory) => Err(AllocError),
    }
}

// Searches from the fill of the empty timetable, and makes what is said of the best, where there is one.
fn search_from_fill<R: Threads + Wait + Sync, G: Gate>(
    rt: &R,
    alloc: Global,
    seed: u64,
    inst: &Instance,
    gate: &G,
) -> Result<Option<Vec<u8>>, AllocError>
    requires { instance (generated seed) ≡ Ok inst.now.draft }
    ensures { IfOk result (λ text. IsShown seed (option_map (λ t. t.items) text)) }
{
    let empty = Plan::empty(alloc, inst)?;
    let options = demo_options(seed);
    let start = par_fill(rt, alloc, inst, HARD, &empty, options.workers, &OpenGate)?;
    let given = Given {
        inst,
        start: &start,
        options,
        freeze: 0,
    };
    let book = search_by_moves(rt, alloc, &given, gate)?;
    let entries = book.entries();
    match best_of(alloc, &given, entries, book.best())? {
        None => Ok(None),
        Some(best) => Ok(Some(demo_said(alloc, seed, entries, &best)?)),
    }
}

/// Searches on the instance of a seed, and says what it found.
pub fn demo<R: Threads + Wait + Sync, G: Gate>(rt: &R, alloc: Global, seed: u64, gate: &G) -> Answer
    ensures ends { Answers (DemoEnds seed) result }
    // it reads and writes no file
    ensures cause { (reads writes : ℕ) → HasFileCause reads reads writes writes result.status }
{
    let Ok(inst) = demo_instance(alloc, seed) else {
        return out_of_memory(alloc);
    };
    match search_from_fill(rt, alloc, seed, &*inst, gate) {
        Ok(Some(text)) => Answer {
            status: Status::Done,
            text,
        },
        Ok(None) => none_found(alloc),
        Err(_) => out_of_memory(alloc),
    }
}
