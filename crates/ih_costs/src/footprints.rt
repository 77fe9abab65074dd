//! The footprint of a move: what all its writes touch at the timetable before them, and what they are chosen by.

ghost use Rattle.std.specs.Prelude.{◌≡◌};
ghost use Rattle.ih_tables.specs.Sizes.{sizes_of};
ghost use Rattle.ih_plan.specs.{Writes.AreWritesOf, Expand.expand, Expand.IsMoveOf, Footprint.touches};
ghost use Rattle.ih_plan.specs.{Footprint.footprint};
ghost use Rattle.ih_footprint.specs.CellsState.{Gathers};
ghost use Rattle.ih_costs.specs.{CellLedgers.AreLedgers, CellLedgers.timetable_of, AtOnce.touch_at_once};
ghost use Rattle.ih_costs.specs.{Scratch.IsFree};

use crate::cell_ledgers::CellLedgers;
use crate::pricing::expand_here;
use crate::scratch::Scratch;
use ih_footprint::{CellList, CellSet, gather, looks};
use ih_plan::{Move, Write};
use ih_tables::Instance;

// Gathers what writes touch, each at the timetable before all of them.
fn gather_all(inst: &Instance, ledgers: &CellLedgers, writes: &[Write], cells: &mut CellSet)
    requires stands { AreLedgers inst.now.draft ledgers.now }
    requires writes { AreWritesOf inst.now.draft writes.now }
    requires sizes { cells.old.sizes ≡ sizes_of inst.now.draft }
    ensures { Gathers cells.old cells.new (touch_at_once inst.now.draft (timetable_of ledgers.now) writes.now) }
{
    match writes.split_first() {
        None => {}
        Some((w, rest)) => {
            gather(inst, ledgers.plan(), &ledgers.room_days, w, cells);
            gather_all(inst, ledgers, rest, cells);
        }
    }
}

/// Gathers the cells of a move's footprint in the set of `scratch`, which then has the move's writes. `looked` is room
/// for the cells that these are chosen by.
#[inline(always)]
pub fn gather_move(
    inst: &Instance,
    ledgers: &CellLedgers,
    scratch: &mut Scratch,
    mv: &Move,
    looked: &mut CellList,
)
    requires stands { AreLedgers inst.now.draft ledgers.now }
    requires move_in { IsMoveOf inst.now.draft mv.now }
    requires set { scratch.old.set.sizes ≡ sizes_of inst.now.draft }
    requires sizes { looked.old.sizes ≡ sizes_of inst.now.draft }
    ensures made { scratch.new.writes ≡ expand inst.now.draft (timetable_of ledgers.now) mv.now }
    ensures fits { AreWritesOf inst.now.draft scratch.new.writes }
    ensures gathers { Gathers scratch.old.set scratch.new.set
        (touches inst.now.draft (timetable_of ledgers.now) mv.now) }
    ensures sizes { looked.new.sizes ≡ looked.old.sizes }
{
    looked.clear();
    looks(mv, looked);
    scratch.set.add_all(looked.cells());
    expand_here(inst, ledgers, mv, &mut scratch.writes);
    gather_all(inst, ledgers, scratch.writes.as_slice(), &mut scratch.set);
}

/// Lists the cells of a move's footprint in `foot`, rising, in place of what was listed. The set of `scratch`, where
/// they are gathered, has none before and after.
pub fn foot_of(
    inst: &Instance,
    ledgers: &CellLedgers,
    scratch: &mut Scratch,
    mv: &Move,
    foot: &mut CellList,
)
    requires stands { AreLedgers inst.now.draft ledgers.now }
    requires move_in { IsMoveOf inst.now.draft mv.now }
    requires free { IsFree inst.now.draft scratch.old }
    requires sizes { foot.old.sizes ≡ sizes_of inst.now.draft }
    ensures cells { foot.new.cells ≡ footprint inst.now.draft (timetable_of ledgers.now) mv.now }
    ensures sizes { foot.new.sizes ≡ foot.old.sizes }
    ensures free { IsFree inst.now.draft scratch.new }
{
    gather_move(inst, ledgers, scratch, mv, foot);
    foot.take_from(&mut scratch.set);
}
