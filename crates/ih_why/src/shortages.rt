//! What is said where patients and occupants together need more than there is.

ghost use Rattle.std.specs.Prelude.{◌≡◌, ◌++◌, ◌≤◌, IfOk, IfSome, OnOk, string_bytes};
ghost use Rattle.ih_solution.specs.Solution.{theatre_id};
ghost use Rattle.ih_bound.specs.Bounds.{NoneIsFeasible};
ghost use Rattle.ih_why.specs.Shortages.{IsToldTogether, beds_text, days_text, dear_line, surgeon_text};
ghost use Rattle.ih_why.specs.Shortages.{theatre_text, thing_line, together_text};

use crate::accounts::surgeon_id;
use crate::sentences::Text;
use ih_bound::{Dear, Thing, dearest, refute, sharpen};
use ih_tables::{Instance, TheatreNo};
use std::alloc::{AllocError, Global};
use std::thread::Threads;

// The theatre's id.
fn theatre_id(inst: &Instance, theatre: TheatreNo) -> &str
    ensures { result.now ≡ theatre_id inst.now.draft theatre.0 }
{
    match inst
        .draft
        .operating_theaters
        .as_slice()
        .get(theatre.0 as usize)
    {
        Some(a) => a.id.as_str(),
        None => "",
    }
}

// A day, or days in a row.
#[tactic(auto, unfolding(crate::specs::Shortages::days_text))]
fn days_text(alloc: Global, first: u32, last: u32) -> Text
    ensures { IfOk result (λ s. string_bytes s ≡ days_text first last) }
{
    if first == last {
        format!(in alloc; "day {first}")
    } else {
        format!(in alloc; "days {first} to {last}")
    }
}

#[tactic(auto, unfolding(crate::specs::Shortages::beds_text))]
fn beds_text(alloc: Global, days: &str) -> Text
    ensures { IfOk result (λ s. string_bytes s ≡ beds_text days.now) }
{
    format!(in alloc; "  perhaps too few: beds on {days}\n")
}

#[tactic(auto, unfolding(crate::specs::Shortages::surgeon_text))]
fn surgeon_text(alloc: Global, surgeon: &str, days: &str) -> Text
    ensures { IfOk result (λ s. string_bytes s ≡ surgeon_text surgeon.now days.now) }
{
    format!(in alloc; "  perhaps too little time: surgeon {surgeon} on {days}\n")
}

#[tactic(auto, unfolding(crate::specs::Shortages::theatre_text))]
fn theatre_text(alloc: Global, theatre: &str, days: &str) -> Text
    ensures { IfOk result (λ s. string_bytes s ≡ theatre_text theatre.now days.now) }
{
    format!(in alloc; "  perhaps too little time: theatre {theatre} on {days}\n")
}

// What is said of a thing on days.
fn thing_text(alloc: Global, inst: &Instance, thing: Thing, days: &str) -> Text
    ensures { IfOk result (λ s. string_bytes s ≡ thing_line inst.now.draft thing days.now) }
{
    match thing {
        Thing::Beds => beds_text(alloc, days),
        Thing::OfSurgeon(s) => surgeon_text(alloc, surgeon_id(inst, s), days),
        Thing::OfTheatre(t) => theatre_text(alloc, theatre_id(inst, t), days),
    }
}

// Appends what is said of what is dear.
fn put_dear(alloc: Global, out: &mut String, inst: &Instance, dear: &Dear) -> Result<(), AllocError>
    ensures { OnOk result (string_bytes out.new ≡ string_bytes out.old ++ dear_line inst.now.draft dear.now) }
{
    let days = days_text(alloc, dear.first, dear.last)?;
    let line = thing_text(alloc, inst, dear.thing, days.as_str())?;
    out.push_str(line.as_str())
}

// What is said, with a line for each of these.
fn together_text(alloc: Global, inst: &Instance, list: &[Dear]) -> Result<Vec<u8>, AllocError>
    ensures { IfOk result (λ text. text.items ≡ together_text inst.now.draft list.now) }
{
    let mut out = String::new(alloc);
    out.push_str(
        "no feasible plan exists: together the patients who must be admitted need more than there is\n",
    )?;
    for a in list {
        put_dear(alloc, &mut out, inst, a)?;
    }
    Ok(out.into_bytes())
}

/// That no timetable of an instance is feasible, where prices show it: what patients who must be admitted and occupants
/// need together is worth more than all that there is. And as a hint what is dear then, the dearest first, a line for
/// each thing and its days. Persons are dealt to so many workers, one at least.
pub fn together<R: Threads + Sync>(
    rt: &R,
    alloc: Global,
    inst: &Instance,
    workers: u32,
) -> Result<Option<Vec<u8>>, AllocError>
    requires few { workers ≤ 64 }
    ensures none { IfOk result (λ r. IfSome r (λ _. NoneIsFeasible inst.now.draft)) }
    ensures told { IfOk result (λ r. IfSome r (λ text. IsToldTogether inst.now.draft text.items)) }
{
    match refute(rt, alloc, inst, workers)? {
        None => Ok(None),
        Some(mut scarcity) => {
            sharpen(rt, alloc, inst, &mut scarcity, workers)?;
            let list = dearest(alloc, inst, &scarcity)?;
            Ok(Some(together_text(alloc, inst, list.as_slice())?))
        }
    }
}
