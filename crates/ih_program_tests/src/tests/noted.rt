//! Rounds over a searcher whose answers are kept.

ghost use Rattle.ih_plan.specs.Timetable.{IsPlanOf};

use ih_fixtures::WARD;
use ih_instance::read_instance;
use ih_journal::{Entry, Options};
use ih_plan::{Move, Plan};
use ih_rounds::{Noted, RoundsEnd, Searcher, rounds};
use ih_shelf::OpenGate;
use ih_tables::{Day, Instance, NurseNo, RoomNo, Shift};
use ih_top::history_at_desk;
use std::alloc::{AllocError, Global};
use std::sync::Wait;
use std::thread::Threads;

const OPTIONS: Options = Options {
    seed: 0,
    workers: 1,
    moves: 1,
    heat: 0,
    hard: 1_000,
    retries: 0,
};

// Searches at a desk, and doesn't tell its answers.
#[derive(Drop)]
struct AtDesk;

impl Searcher for AtDesk {
    ghost use Rattle.std.specs.Prelude.{None};

    ghost answers = { λ s. None };

    fn search<R: Threads + Wait + Sync>(
        &mut self,
        rt: &R,
        alloc: Global,
        inst: &Instance,
        start: &Plan,
        options: &Options,
    ) -> Result<Vec<Entry>, AllocError> {
        history_at_desk(rt, alloc, inst, start, options, &OpenGate)
    }
}

// No move of the second round changes the only cheapest timetable.
const TWO_JOURNALS: &str = "ihjournal 1 seed=0 workers=1 moves=1 heat=0 hard=1000
0 0 0 0 nurserun:0,0,0,5 0,0,0,0,0,0,0,0,-3,0,1,1,0,0,0,0,0 accepted
ihjournal 1 seed=64 workers=1 moves=1 heat=0 hard=1000
0 0 0 0 swapnurses:1,0,0 0,0,0,0,0,0,0,0,0,0,0,0,0,0,0,0,0 accepted
";

// Whether the best comes after the only move of the first round.
fn is_after_first_move(end: &RoundsEnd) -> bool {
    match end {
        RoundsEnd::Found {
            round,
            place,
            count,
            ..
        } => (*round, *place, *count) == (0, 1, 1),
        RoundsEnd::NoneFound => false,
    }
}

// Whether two rounds of a searcher have such a best, and their journals.
fn come_out<R: Threads + Wait + Sync, S: Searcher>(
    rt: &R,
    alloc: Global,
    inst: &Instance,
    start: &Plan,
    searcher: &mut S,
) -> bool
    requires { IsPlanOf inst.now.draft start.now }
{
    let mut journal = Vec::new(alloc);
    match rounds(rt, alloc, inst, start, &OPTIONS, 2, searcher, &mut journal) {
        Ok(end) => is_after_first_move(&end) && journal.as_slice() == TWO_JOURNALS.as_bytes(),
        Err(_) => false,
    }
}

const FIRST: Move = Move::NurseRun(NurseNo(0), RoomNo(0), Day(0), 5);

const SECOND: Move = Move::SwapNurses(Shift(1), RoomNo(0), RoomNo(0));

// Whether a history has this move alone.
fn has_move(answer: Option<&Vec<Entry>>, mv: &Move) -> bool {
    match answer {
        Some(entries) => entries.len() == 1 && entries[0].mv == *mv,
        None => false,
    }
}

// Whether each round's history is noted, the first one first.
fn are_in_order(answers: &[Vec<Entry>]) -> bool {
    answers.len() == 2 && has_move(answers.first(), &FIRST) && has_move(answers.get(1), &SECOND)
}

// Whether two rounds come out as expected from a start, and their histories are noted in order.
fn are_noted<R: Threads + Wait + Sync>(rt: &R, alloc: Global, inst: &Instance, start: &Plan) -> bool
    requires { IsPlanOf inst.now.draft start.now }
{
    let mut noted = Noted::new(alloc, AtDesk);
    come_out(rt, alloc, inst, start, &mut noted) && are_in_order(noted.answers())
}

// Whether two rounds come out as expected from the empty timetable, and their histories are noted in order.
fn are_noted_from_empty<R: Threads + Wait + Sync>(rt: &R, alloc: Global, inst: &Instance) -> bool {
    match Plan::empty(alloc, inst) {
        Ok(start) => are_noted(rt, alloc, inst, &start),
        Err(_) => false,
    }
}

// Whether two rounds come out as expected from the empty ward, and their histories are noted in order.
fn are_noted_on_ward<R: Threads + Wait + Sync>(rt: &R, alloc: Global) -> bool {
    match read_instance(alloc, WARD.as_bytes()) {
        Ok(inst) => are_noted_from_empty(rt, alloc, &inst),
        Err(_) => false,
    }
}

#[test]
fn noted_rounds(rt: HostRuntime) {
    assert!(rt; are_noted_on_ward(&rt, rt.alloc()));
}
