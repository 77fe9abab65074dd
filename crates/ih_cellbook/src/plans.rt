//! The timetable at a place of a history.

ghost use Rattle.std.specs.Prelude.{◌≡◌, ◌≤◌, All, IfOk, length, map, take};
ghost use Rattle.ih_plan.specs.{Timetable.IsPlanOf, Writes.put_all, Writes.AreWritesOf, Expand.after, Expand.IsMoveOf};
ghost use Rattle.ih_plan.specs.{Series.after_all, Series.AreMoves};
ghost use Rattle.ih_journal.specs.History.{after_entries, after_entry};

use crate::entry_kinds::{Attempted, Logged};
use ih_journal::Verdict;
use ih_moves::{Writes, expand};
use ih_plan::{Move, Plan, Write};
use ih_tables::Instance;
use std::alloc::{AllocError, Global};

// Makes the writes in order.
fn put_all(inst: &Instance, plan: &mut Plan, writes: &[Write])
    requires plan { IsPlanOf inst.now.draft plan.old }
    requires writes { AreWritesOf inst.now.draft writes.now }
    ensures { plan.new ≡ put_all writes.now plan.old }
{
    for w in writes {
        plan.put(w);
    }
}

// Makes the move.
fn make_move(inst: &Instance, plan: &mut Plan, writes: &mut Writes, mv: &Move)
    requires plan { IsPlanOf inst.now.draft plan.old }
    requires move_in { IsMoveOf inst.now.draft mv.now }
    ensures { plan.new ≡ after inst.now.draft plan.old mv.now }
{
    expand(inst, plan, mv, writes);
    put_all(inst, plan, writes.as_slice());
}

// Makes the moves in order.
fn make_all(inst: &Instance, plan: &mut Plan, writes: &mut Writes, moves: &[Move])
    requires plan { IsPlanOf inst.now.draft plan.old }
    requires moves_in { AreMoves inst.now.draft moves.now }
    ensures { plan.new ≡ after_all inst.now.draft plan.old moves.now }
{
    for mv in moves {
        make_move(inst, plan, writes, mv);
    }
}

// Makes the entry's moves, where it was accepted.
fn take_over<E: Logged>(inst: &Instance, plan: &mut Plan, writes: &mut Writes, entry: &E)
    requires plan { IsPlanOf inst.now.draft plan.old }
    requires moves_in { AreMoves inst.now.draft (E.tried entry.now).moves }
    ensures { plan.new ≡ after_entry inst.now.draft plan.old (E.tried entry.now) }
{
    if let Verdict::Accepted = entry.verdict() {
        make_all(inst, plan, writes, entry.attempt().as_slice());
    }
}

/// The timetable after the first `place` entries that follow a start.
pub fn plan_at<E: Logged>(
    alloc: Global,
    inst: &Instance,
    start: &Plan,
    entries: &[E],
    place: u32,
) -> Result<Plan, AllocError>
    requires start { IsPlanOf inst.now.draft start.now }
    requires inside { place ≤ length entries.now }
    requires moves { All (λ e. AreMoves inst.now.draft e.moves) (map E.tried entries.now) }
    ensures made { IfOk result
        (λ plan. plan ≡ after_entries inst.now.draft start.now (take place (map E.tried entries.now))) }
    ensures fits { IfOk result (IsPlanOf inst.now.draft) }
{
    let mut plan = start.try_clone(alloc)?;
    let mut writes = Writes::new();
    for entry in &entries[..place as usize] {
        take_over(inst, &mut plan, &mut writes, entry);
    }
    Ok(plan)
}
