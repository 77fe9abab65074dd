//! All workers side by side, and what they find in the order of the choices.

ghost use Rattle.std.specs.Prelude.{◌≡◌, ◌<◌, ◌≤◌, ◌++◌, [], true, length, vec_capacity, filter_map, IfOk, OnOk, All};
ghost use Rattle.std.specs.List.{cons_option, range_with_len};
ghost use Rattle.ih_plan.specs.Timetable.{IsPlanOf};
ghost use Rattle.ih_fill.specs.Choices.{IsChoiceOf};
ghost use Rattle.ih_advise.specs.Advising.{advice, advice_on};
ghost use Rattle.ih_advise.specs.Dealing.{HasAnswered, HaveAnswered, IsReady, found_of};

use crate::choosing::Advice;
use crate::findings::Findings;
use ih_fill::{Choice, Scorer, all_choices};
use ih_journal::MAX_WORKERS;
use ih_plan::Plan;
use ih_shelf::Gate;
use ih_tables::Instance;
use std::alloc::{AllocError, Global};
use std::sync::Wait;
use std::thread::{Threads, for_each_mut};

// A place for what each worker finds, with room for all of it.
fn new_findings(alloc: Global, workers: usize, most: usize) -> Result<Vec<Findings>, AllocError>
    requires { workers ≤ 64 }
    ensures len { IfOk result (λ v. length v.items ≡ workers) }
    ensures ready { IfOk result (λ v. All (λ f. (f.found.items ≡ []) × (vec_capacity f.found ≡ most)) v.items) }
{
    let mut findings = Vec::with_capacity(alloc, workers)?;
    for _ in 0..workers {
        findings.push_reserved(Findings::new(alloc, most)?);
    }
    Ok(findings)
}

// One worker's work, between its two passes of the gate.
fn work_alone<R: Wait, G: Gate>(
    rt: &R,
    inst: &Instance,
    scorer: &Scorer<'_>,
    choices: &[Choice],
    workers: usize,
    worker: usize,
    findings: &mut Findings,
    gate: &G,
)
    requires instance { scorer.now.instance ≡ inst.now.draft }
    requires counts { scorer.now.counts_uncovered ≡ true }
    requires inside { All (IsChoiceOf inst.now.draft) choices.now }
    requires few { workers ≤ 64 }
    requires worker { worker < workers }
    requires ready { IsReady (length choices.now) workers findings.old }
    ensures { HasAnswered inst.now.draft scorer.now.hard scorer.now.plan choices.now workers worker
        findings.new.found.items }
{
    gate.before(rt, worker as u32, 0);
    findings.find_all(inst, scorer, choices, workers, worker);
    gate.after(rt, worker as u32, 0);
}

// Lets each worker look for its advice, in a thread of its own where one can be started. All price from one set of
// ledgers.
fn work<R: Threads + Wait + Sync, G: Gate>(
    rt: &R,
    inst: &Instance,
    scorer: &Scorer<'_>,
    choices: &[Choice],
    findings: &mut [Findings],
    gate: &G,
)
    requires instance { scorer.now.instance ≡ inst.now.draft }
    requires counts { scorer.now.counts_uncovered ≡ true }
    requires inside { All (IsChoiceOf inst.now.draft) choices.now }
    requires few { length findings.old ≤ 64 }
    requires ready { All (IsReady (length choices.now) (length findings.old)) findings.old }
    ensures { HaveAnswered inst.now.draft scorer.now.hard scorer.now.plan choices.now (length findings.old)
        findings.new }
{
    let workers = findings.len();
    for_each_mut(
        rt,
        findings,
        MAX_WORKERS as usize,
        &|worker, findings|
            requires { (scorer.now.instance ≡ inst.now.draft) × (scorer.now.counts_uncovered ≡ true)
                × All (IsChoiceOf inst.now.draft) choices.now × (workers ≤ 64) × (worker < workers)
                × IsReady (length choices.now) workers findings.now }
        { work_alone(rt, inst, scorer, choices, workers, worker, findings, gate) },
    );
}

// What is advised on the choice of a number. Choices are dealt to the workers in turn. So the number modulo how many
// workers there are is the worker who found it, and the quotient is its place among what that worker found.
fn found_of(findings: &[Findings], number: usize) -> Option<Advice>
    requires { 0 < length findings.now }
    ensures { result ≡ found_of findings.now number }
{
    let found = &findings[number % findings.len()].found;
    match found.get(number / findings.len()) {
        Some(advice) => *advice,
        None => None,
    }
}

// Appends what was found, where anything was.
fn push_found(list: &mut Vec<Advice>, found: Option<Advice>) -> Result<(), AllocError>
    ensures { OnOk result (list.new.items ≡ list.old.items ++ cons_option found []) }
{
    if let Some(advice) = found {
        list.push(advice)?;
    }
    Ok(())
}

// What the workers found on the first so many choices, in order.
fn gather(alloc: Global, findings: &[Findings], count: usize) -> Result<Vec<Advice>, AllocError>
    requires { 0 < length findings.now }
    ensures { IfOk result (λ v. v.items ≡ filter_map (found_of findings.now) (range_with_len 0 count)) }
{
    let mut list = Vec::new(alloc);
    for number in 0..count {
        push_found(&mut list, found_of(findings, number))?;
    }
    Ok(list)
}

// What the workers find, side by side, in the order of the choices.
fn advise_by<R: Threads + Wait + Sync, G: Gate>(
    rt: &R,
    alloc: Global,
    inst: &Instance,
    scorer: &Scorer<'_>,
    choices: &[Choice],
    findings: &mut [Findings],
    gate: &G,
) -> Result<Vec<Advice>, AllocError>
    requires instance { scorer.now.instance ≡ inst.now.draft }
    requires counts { scorer.now.counts_uncovered ≡ true }
    requires inside { All (IsChoiceOf inst.now.draft) choices.now }
    requires some { 0 < length findings.old }
    requires few { length findings.old ≤ 64 }
    requires ready { All (IsReady (length choices.now) (length findings.old)) findings.old }
    ensures { IfOk result
        (λ v. v.items ≡ filter_map (advice_on inst.now.draft scorer.now.hard scorer.now.plan) choices.now) }
{
    work(rt, inst, scorer, choices, findings, gate);
    gather(alloc, findings, choices.len())
}

/// What is advised on a timetable, in the order of the choices: for each choice that one other write may improve, the
/// first write of least score, by how much it changes the score, and what it changes in the bill. `hard` is the weight
/// of a broken rule in a score. Whatever the number of workers, from 1 to 64, the advice is the same; each passes the
/// gate twice, before its first choice and after its last, also where it has none.
pub fn advise<R: Threads + Wait + Sync, G: Gate>(
    rt: &R,
    alloc: Global,
    inst: &Instance,
    plan: &Plan,
    hard: u32,
    workers: u32,
    gate: &G,
) -> Result<Vec<Advice>, AllocError>
    requires plan { IsPlanOf inst.now.draft plan.now }
    requires hard { hard ≤ 1000000 }
    requires some { 0 < workers }
    requires few { workers ≤ 64 }
    ensures { IfOk result (λ v. v.items ≡ advice inst.now.draft hard plan.now) }
{
    let scorer = Scorer::new(alloc, inst, hard, true, plan)?;
    let choices = all_choices(alloc, inst)?;
    let workers = workers as usize;
    let most = choices.len().div_ceil(workers);
    let mut findings = new_findings(alloc, workers, most)?;
    advise_by(
        rt,
        alloc,
        inst,
        &scorer,
        choices.as_slice(),
        findings.as_mut_slice(),
        gate,
    )
}
