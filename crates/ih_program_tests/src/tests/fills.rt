//! The fill of the two patients' ward by several workers.

ghost use Rattle.std.specs.Prelude.{◌<◌, ◌≤◌};
ghost use Rattle.ih_plan.specs.Timetable.{IsPlanOf};

use ih_fixtures::TWO_PATIENTS;
use ih_instance::read_instance;
use ih_parfill::par_fill;
use ih_plan::Plan;
use ih_scripts::{CountingGate, given};
use ih_shelf::{Gate, HoldGate, OpenGate};
use ih_solution::write_solution;
use ih_tables::Instance;
use std::alloc::Global;
use std::sync::Wait;
use std::thread::Threads;

const TURNS: u64 = 100_000_000;

// Whether a timetable is written as the fill: the mandatory patient comes on the second day, the other one on the first
// in the other room. Then the first nurse has the first room but in the first night, in which the occupant needs the
// second one's skill, who also has the second room on the first day.
fn is_the_fill(alloc: Global, inst: &Instance, filled: &Plan) -> bool
    requires { IsPlanOf inst.now.draft filled.now }
{
    match write_solution(alloc, inst, filled) {
        Ok(text) => text.as_slice() == given("filled-solution").as_bytes(),
        Err(_) => false,
    }
}

// Whether so many workers make the fill of an empty timetable, past a gate.
fn is_filled<R: Threads + Wait + Sync, G: Gate>(
    rt: &R,
    alloc: Global,
    inst: &Instance,
    empty: &Plan,
    workers: u32,
    gate: &G,
) -> bool
    requires plan { IsPlanOf inst.now.draft empty.now }
    requires some { 0 < workers }
    requires few { workers ≤ 64 }
{
    match par_fill(rt, alloc, inst, 1_000, empty, workers, gate) {
        Ok(filled) => is_the_fill(alloc, inst, &filled),
        Err(_) => false,
    }
}

// Whether 1, 2 and 64 workers each make the fill. Both theatres are as cheap for the mandatory patient, and lie in
// the shares of two workers: the first wins, whoever finds it.
fn all_fill<R: Threads + Wait + Sync>(rt: &R, alloc: Global, inst: &Instance, empty: &Plan) -> bool
    requires { IsPlanOf inst.now.draft empty.now }
{
    is_filled(rt, alloc, inst, empty, 1, &OpenGate)
        && is_filled(rt, alloc, inst, empty, 2, &OpenGate)
        && is_filled(rt, alloc, inst, empty, 64, &OpenGate)
}

// Whether each of two workers looks at the first choice before the other is done with it.
fn two_fill_side_by_side<R: Threads + Wait + Sync>(
    rt: &R,
    alloc: Global,
    inst: &Instance,
    empty: &Plan,
) -> bool
    requires { IsPlanOf inst.now.draft empty.now }
{
    let gate = HoldGate::new(TURNS, 1);
    is_filled(rt, alloc, inst, empty, 2, &gate) && !gate.ran_out()
}

// Whether each of two passes a gate once for each of eleven choices: the two patients, the first room in all six shifts,
// and the second in the three of the first day. It is empty afterwards, so three of the fourteen numbers are left out.
fn two_pass_in_turn<R: Threads + Wait + Sync>(
    rt: &R,
    alloc: Global,
    inst: &Instance,
    empty: &Plan,
) -> bool
    requires { IsPlanOf inst.now.draft empty.now }
{
    let gate = CountingGate::new();
    is_filled(rt, alloc, inst, empty, 2, &gate) && gate.counted(11, 13)
}

#[tactic(auto, using(ih_plan::proofs::PlanRanges::plan_steps))]
fn all_fill_empty<R: Threads + Wait + Sync>(rt: &R, alloc: Global, inst: &Instance) -> bool {
    match Plan::empty(alloc, inst) {
        Ok(empty) => {
            all_fill(rt, alloc, inst, &empty)
                && two_fill_side_by_side(rt, alloc, inst, &empty)
                && two_pass_in_turn(rt, alloc, inst, &empty)
        }
        Err(_) => false,
    }
}

fn all_fill_ward<R: Threads + Wait + Sync>(rt: &R, alloc: Global) -> bool {
    match read_instance(alloc, TWO_PATIENTS.as_bytes()) {
        Ok(inst) => all_fill_empty(rt, alloc, &inst),
        Err(_) => false,
    }
}

#[test]
fn any_number_of_workers_fill_alike(rt: HostRuntime) {
    assert!(rt; all_fill_ward(&rt, rt.alloc()));
}
