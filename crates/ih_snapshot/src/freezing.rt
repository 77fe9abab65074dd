//! Whether an attempt changes a choice before the freeze day.

ghost use Rattle.std.specs.Prelude.{◌≡◌, ◌<◌, ◌≤◌, length};
ghost use Rattle.std.specs.List.{list_any};
ghost use Rattle.ih_plan.specs.{Timetable.IsPlanOf, Writes.AreWritesOf, Series.AreMoves, Series.expand_all};
ghost use Rattle.ih_plan.specs.Frozen.{is_frozen_write};

use ih_journal::frozen;
use ih_moves::{Writes, expand};
use ih_plan::{Move, Plan, Write};
use ih_tables::Instance;

// Whether one of the writes is frozen.
fn any_frozen(inst: &Instance, start: &Plan, freeze: u32, writes: &[Write]) -> bool
    requires start { IsPlanOf inst.now.draft start.now }
    requires writes { AreWritesOf inst.now.draft writes.now }
    ensures { result ≡ list_any (is_frozen_write start.now freeze) writes.now }
{
    match writes.split_first() {
        None => false,
        Some((w, rest)) => frozen(start, freeze, w) || any_frozen(inst, start, freeze, rest),
    }
}

/// Whether one of the writes of these moves changes a choice before the freeze day. Where there is such a day, they are
/// one move at most.
pub(crate) fn touches_frozen(
    inst: &Instance,
    start: &Plan,
    freeze: u32,
    plan: &Plan,
    moves: &[Move],
    writes: &mut Writes,
) -> bool
    requires start { IsPlanOf inst.now.draft start.now }
    requires plan { IsPlanOf inst.now.draft plan.now }
    requires moves { AreMoves inst.now.draft moves.now }
    requires alone { 0 < freeze → length moves.now ≤ 1 }
    ensures { result ≡ list_any (is_frozen_write start.now freeze) (expand_all inst.now.draft plan.now moves.now) }
{
    if freeze == 0 {
        return false;
    }
    match moves.split_first() {
        None => false,
        Some((mv, _rest)) => {
            expand(inst, plan, mv, writes);
            any_frozen(inst, start, freeze, writes.as_slice())
        }
    }
}
