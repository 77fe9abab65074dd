//! The command `improve`: a search in rounds, each of which is told as it is over.

ghost use Rattle.std.specs.Prelude.{◌≡◌, ◌+◌, ◌≤◌, IfOk, IfSome, None, map, option_map, unwrap_or};
ghost use Rattle.ih_optimizer.specs.Below.Wards.{IsPlanOf};
ghost use Rattle.ih_optimizer.specs.Below.Endings.{ArePlans, ArePutsAtMost, EndsOver, HasCauseOver, IfTold, IsSaid};
ghost use Rattle.ih_optimizer.specs.Below.Endings.{StartRefused, files_of};
ghost use Rattle.ih_optimizer.specs.Call.{IsLawfulCall, improve_call, improve_inputs, reading};
ghost use Rattle.ih_optimizer.specs.Pacing.{most_rounds};
ghost use Rattle.ih_optimizer.specs.Pinning.{first_unknown, unknown_patient, unknown_text};
ghost use Rattle.ih_optimizer.specs.Searching.{ImproveEnds, IsLimit, IsSearchFrom, begun};

use crate::call::Improve;
use crate::rounds::Search;
use crate::times::Times;
use crate::watches::Watch;
use ih_bound::bound;
use ih_endings::{Answer, Status, conclude, conclude_memory, read_or_answer, said};
use ih_fill::fill;
use ih_frame::{go_on, two_names};
use ih_improve::{Improver, Pins, Standing, is_better};
use ih_inputs::{InputNames, Inputs};
use ih_plan::{MAX_WORKERS, Plan};
use ih_shelf::{Finds, Sink};
use ih_tables::{Fault, Instance, Key, Place, Refusal};
use ih_validate::bill;
use std::alloc::{AllocError, Global};
use std::rt::Files;
use std::sync::Wait;
use std::thread::{Threads, available_parallelism};

/// How often prices are tried at most where no number is given.
pub const DEFAULT_BOUND_ROUNDS: u32 = 1500;

// How many workers there are where the number of processors can't be told.
const UNTOLD_PROCESSORS: u32 = 4;

// How many processors there are, at most as many as there may be workers.
fn processors<R: Threads>(rt: &R) -> u32
    ensures some { 1 ≤ result }
    ensures few { result ≤ MAX_WORKERS }
{
    match available_parallelism(rt) {
        Ok(count) => (count.get().clamp(1, MAX_WORKERS as usize)) as u32,
        Err(_) => UNTOLD_PROCESSORS,
    }
}

// The fill of the timetable that is given, where the search starts from that.
fn better_fill(
    alloc: Global,
    inst: &Instance,
    hard: u32,
    is_filled: bool,
    given: &Plan,
) -> Result<Option<Plan>, AllocError>
    requires hard { hard ≤ 1000000 }
    requires plan { IsPlanOf inst.now.draft given.now }
    ensures start { IfOk result (λ o. unwrap_or o given.now ≡ begun is_filled hard inst.now.draft given.now) }
    ensures plan { IfOk result (λ o. IfSome o (IsPlanOf inst.now.draft)) }
{
    if !is_filled {
        return Ok(None);
    }
    let filled = fill(alloc, inst, hard, given)?;
    let before = bill(inst, given);
    if before.feasible() {
        let after = Standing::of_bill(bill(inst, &filled));
        if !is_better(inst, hard, 0, &after, &Standing::of_bill(before)) {
            return Ok(None);
        }
    }
    Ok(Some(filled))
}

// The first of the ids that no patient has.
fn first_unknown<'a>(inst: &Instance, ids: &[&'a str]) -> Option<&'a str>
    ensures { option_map (λ t. t.now) result ≡ first_unknown inst.now.draft (map (λ t. t.now) ids.entry.now) }
{
    match ids.split_first() {
        None => None,
        Some((id, later)) => {
            if inst.find_patient(id).is_none() {
                Some(*id)
            } else {
                first_unknown(inst, later)
            }
        }
    }
}

// What is said of an id that no patient has.
#[tactic(auto, using(ih_endings::proofs::Saying::said_by))]
fn pins_nobody(alloc: Global, id: &str) -> Answer
    ensures { IsSaid (StartRefused unknown_patient) (unknown_text id.now) result }
{
    let status = Status::StartRefused(Refusal {
        fault: Fault::Unknown,
        at: Place {
            section: Some(Key::Patients),
            first: None,
            second: None,
            last: None,
        },
    });
    said(alloc, status, format!(in alloc; "unknown patient: {id}\n"))
}

// What no feasible timetable costs less than, where the call asks for that. It is found by as many workers as the search
// has.
fn limit_of<R: Threads + Sync>(
    rt: &R,
    alloc: Global,
    call: &Improve<'_>,
    inst: &Instance,
    processors: u32,
) -> Result<Option<ih_bound::Outcome>, AllocError>
    requires lawful { IsLawfulCall (improve_call call.now) }
    requires few { processors ≤ MAX_WORKERS }
    ensures { IfOk result (IsLimit (improve_call call.now).is_bounded inst.now.draft) }
{
    if !call.is_bounded {
        return Ok(None);
    }
    let workers = call.settings.workers.unwrap_or(processors);
    let found = bound(rt, alloc, inst, DEFAULT_BOUND_ROUNDS, workers)?;
    Ok(Some(found))
}

// The search of a call from what the files gave, before its first round. What is older is the timetable that stays where
// it is cheaper.
fn search_from<'i, 'o, W: Watch>(
    alloc: Global,
    call: &Improve<'o>,
    inputs: &'i Inputs,
    processors: u32,
    bound: Option<ih_bound::Outcome>,
    times: Times,
    watch: W,
) -> Result<Search<'i, 'o, W>, AllocError>
    requires lawful { IsLawfulCall (improve_call call.now) }
    requires some { 1 ≤ processors }
    requires few { processors ≤ MAX_WORKERS }
    requires plans { ArePlans inputs.now }
    requires named { first_unknown inputs.now.inst.value.draft (improve_call call.now).pins ≡ None }
    ensures search { IfOk result (λ s. IsSearchFrom inputs.entry.now.inst.value.draft inputs.entry.now.plan
        (improve_call call.entry.now) s.improver) }
    ensures instance { IfOk result (λ s. s.improver.instance ≡ s.inst.now.draft) }
    ensures draft { IfOk result (λ s. s.draft ≡ call.entry.now.draft) }
    ensures bound { IfOk result (λ s. s.bound ≡ bound) }
    ensures pace { IfOk result (λ s. s.pace ≡ call.entry.now.pace) }
    ensures times { IfOk result (λ s. s.times ≡ times) }
    ensures out { IfOk result (λ s. s.out ≡ call.entry.now.out) }
    ensures held { IfOk result (λ s. option_map (λ h. h.now) s.held ≡ inputs.entry.now.older) }
    ensures held_plan { IfOk result (λ s. IfSome s.held (λ h. IsPlanOf s.inst.now.draft h.now)) }
{
    let inst = &*inputs.inst;
    let settings = call.settings.settings(inst, processors);
    let filled = better_fill(alloc, inst, settings.hard, call.start.fill, &inputs.plan)?;
    let start = filled.as_ref().unwrap_or(&inputs.plan);
    let pins = Pins::of(alloc, inst, call.pins.as_slice(), call.pin_nurses)?;
    let improver = Improver::new(alloc, inst, start, pins, &settings)?;
    Ok(Search {
        inst,
        out: call.out,
        held: inputs.older.as_ref(),
        draft: call.draft,
        bound,
        pace: call.pace,
        times,
        watch,
        improver,
    })
}

// The names of the files that the call reads: that of the solution only where it is found.
fn names_of<'a>(call: &Improve<'a>, is_found: bool) -> InputNames<'a>
    ensures { files_of result ≡ improve_inputs (reading is_found (improve_call call.now)) }
{
    InputNames {
        older: if is_found && call.keeps {
            Some(call.out)
        } else {
            None
        },
        ..two_names(call.instance, call.start.file, true)
    }
}

/// Reads the instance, the start and, where it is there and isn't to be replaced, the timetable that the file of the
/// solution has. Finds what no feasible timetable costs less than, where the call asks for that. Searches in rounds, and
/// writes the best so far after the first round that has a feasible one better than that, and after each that found a
/// better one. By the clock it asks the watch between rounds.
pub fn improve<R: Files + Print + Threads + Wait + Sync, S: Finds, O: Sink, W: Watch>(
    rt: &R,
    alloc: Global,
    call: &Improve<'_>,
    shelf: &mut S,
    out: &mut O,
    mut watch: W,
) -> Status
    requires { IsLawfulCall (improve_call call.now) }
    ensures ends { EndsOver S.Shelf O.Sink shelf.old shelf.new out.old out.new
        (ImproveEnds (improve_call call.now)) result }
    ensures few { IfTold (ArePutsAtMost (most_rounds call.now.pace.length call.now.pace.rounds + 1)) (O.puts out.old) (O.puts out.new) }
    ensures cause { HasCauseOver S.Shelf O.Sink shelf.old shelf.new out.old out.new result }
{
    let is_found = shelf.finds(rt, call.out);
    let inputs = match read_or_answer(rt, alloc, &names_of(call, is_found), shelf) {
        Ok(inputs) => inputs,
        Err(answer) => return conclude(rt, out, &answer),
    };
    if let Some(id) = first_unknown(&*inputs.inst, call.pins.as_slice()) {
        return conclude(rt, out, &pins_nobody(alloc, id));
    }
    let processors = processors(rt);
    let Ok(bound) = limit_of(rt, alloc, call, &*inputs.inst, processors) else {
        return conclude_memory(rt, out);
    };
    let times = Times::begin(&call.pace, &mut watch);
    match search_from(alloc, call, &inputs, processors, bound, times, watch) {
        Ok(mut search) => go_on(rt, alloc, &mut search, call.pace.most_rounds(), shelf, out),
        Err(_) => conclude_memory(rt, out),
    }
}
