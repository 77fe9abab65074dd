//! What a search makes to be written and said.

ghost use Rattle.std.specs.Prelude.{◌≡◌, ◌<◌, ◌^◌, ◌++◌, IfOk, length, string_bytes};
ghost use Rattle.ih_top.specs.Below.Wards.{IsPlanOf, bill_of, report};
ghost use Rattle.ih_top.specs.Below.Searches.{AreLegal, BestIs, IsBase, IsBest, base_given, tries};
ghost use Rattle.ih_top.specs.{Texts.best_line, Texts.found_text, Outputs.HasBestOutput, Outputs.IsBestOutput};

use ih_cellbook::plan_at;
use ih_desk::Given;
use ih_journal::{Entry, Options};
use ih_plan::Plan;
use ih_solution::write_solution;
use ih_tables::Instance;
use ih_validate::{bill, report};
use itoa::Buffer;
use std::alloc::{AllocError, Global};

/// The best of a history.
#[derive(Drop)]
pub struct BestOutput {
    /// The bytes of its solution file.
    pub solution: Vec<u8>,
    /// Its place, and the report on it.
    pub text: Vec<u8>,
}

/// All that a search makes. It is made whole before anything is written.
#[derive(Drop)]
pub struct Output {
    /// The bytes of the journal file.
    pub journal: Vec<u8>,
    /// The best, where some timetable of the history is feasible.
    pub best: Option<BestOutput>,
}

fn best_line(alloc: Global, place: u32, entries: u32) -> Result<String, AllocError>
    ensures { IfOk result (λ s. string_bytes s ≡ best_line place entries) }
{
    let mut first = Buffer::new();
    let mut second = Buffer::new();
    let place = first.format(place);
    let entries = second.format(entries);
    format!(in alloc; "best {place} of {entries}\n")
}

/// A line, and behind it the report on a timetable.
pub fn with_report(
    alloc: Global,
    line: String,
    inst: &Instance,
    plan: &Plan,
) -> Result<Vec<u8>, AllocError>
    requires { IsPlanOf inst.now.draft plan.now }
    ensures { IfOk result (λ text. text.items
        ≡ string_bytes line ++ report inst.now.draft.weights (bill_of inst.now.draft plan.now)) }
{
    let mut text = line.into_bytes();
    let lines = report(alloc, inst, &bill(inst, plan))?;
    text.extend_from_slice(lines.as_slice())?;
    Ok(text)
}

/// The line of the best, and the report on its timetable.
pub fn found_text(
    alloc: Global,
    inst: &Instance,
    plan: &Plan,
    place: u32,
    entries: u32,
) -> Result<Vec<u8>, AllocError>
    requires { IsPlanOf inst.now.draft plan.now }
    ensures { IfOk result (λ text. text.items
        ≡ found_text place entries inst.now.draft.weights (bill_of inst.now.draft plan.now)) }
{
    let line = best_line(alloc, place, entries)?;
    with_report(alloc, line, inst, plan)
}

fn best_output(
    alloc: Global,
    given: &Given<'_>,
    entries: &[Entry],
    place: u32,
) -> Result<BestOutput, AllocError>
    requires given { IsBase (base_given given.now) }
    requires legal { AreLegal (base_given given.now) 1 (tries entries.now) }
    requires few { length entries.now < 2 ^ 31 }
    requires best { IsBest (base_given given.now) (tries entries.now) place }
    ensures { IfOk result (IsBestOutput (base_given given.now) (tries entries.now)) }
{
    let plan = plan_at(alloc, given.inst, given.start, entries, place)?;
    Ok(BestOutput {
        solution: write_solution(alloc, given.inst, &plan)?,
        text: found_text(alloc, given.inst, &plan, place, entries.len() as u32)?,
    })
}

/// The solution and the report of a history's best, where it has one.
pub fn best_of(
    alloc: Global,
    given: &Given<'_>,
    entries: &[Entry],
    best: Option<(u32, i64)>,
) -> Result<Option<BestOutput>, AllocError>
    requires given { IsBase (base_given given.now) }
    requires legal { AreLegal (base_given given.now) 1 (tries entries.now) }
    requires few { length entries.now < 2 ^ 31 }
    requires best { BestIs (base_given given.now) (tries entries.now) best }
    ensures { IfOk result (HasBestOutput (base_given given.now) (tries entries.now)) }
{
    match best {
        Some((place, _)) => Ok(Some(best_output(alloc, given, entries, place)?)),
        None => Ok(None),
    }
}

/// The seed. A call of this tells the proof that it has 64 bits.
pub fn seed_of(options: &Options) -> u64
    ensures seed { result ≡ options.now.seed }
    ensures small { options.now.seed < 2 ^ 64 }
{
    options.seed
}
