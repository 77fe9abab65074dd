//! Moves that are made in a row.

ghost use Rattle.std.specs.Prelude.{◌≡◌};
ghost use Rattle.ih_tables.specs.Sizes.{sizes_of};
ghost use Rattle.ih_footprint.specs.CellsState.{Gathers};
ghost use Rattle.ih_plan.specs.Series.{AreMoves, after_all, all_touch};
ghost use Rattle.ih_costs.specs.CellLedgers.{AreLedgers, AreLedgersOf, timetable_of};

use crate::cell_ledgers::CellLedgers;
use crate::footprints::gather_move;
use crate::pricing::{expand_here, put_all};
use crate::scratch::Scratch;
use ih_footprint::CellList;
use ih_moves::Writes;
use ih_plan::Move;
use ih_tables::Instance;

/// Makes moves, in order.
pub fn play_in_row(inst: &Instance, ledgers: &mut CellLedgers, moves: &[Move], writes: &mut Writes)
    requires stands { AreLedgers inst.now.draft ledgers.old }
    requires moves { AreMoves inst.now.draft moves.now }
    ensures { AreLedgersOf inst.now.draft (after_all inst.now.draft (timetable_of ledgers.old) moves.now) ledgers.new }
{
    match moves.split_first() {
        None => {}
        Some((mv, later)) => {
            expand_here(inst, ledgers, mv, writes);
            put_all(inst, ledgers, writes.as_slice());
            play_in_row(inst, ledgers, later, writes);
        }
    }
}

/// Makes moves, in order, and gathers their footprints, each move's at the timetable where it is made.
pub fn play_in_row_noting(
    inst: &Instance,
    ledgers: &mut CellLedgers,
    moves: &[Move],
    scratch: &mut Scratch,
    looked: &mut CellList,
)
    requires stands { AreLedgers inst.now.draft ledgers.old }
    requires moves { AreMoves inst.now.draft moves.now }
    requires set { scratch.old.set.sizes ≡ sizes_of inst.now.draft }
    requires sizes { looked.old.sizes ≡ sizes_of inst.now.draft }
    ensures stands { AreLedgersOf inst.now.draft
        (after_all inst.now.draft (timetable_of ledgers.old) moves.now) ledgers.new }
    ensures gathers { Gathers scratch.old.set scratch.new.set
        (all_touch inst.now.draft (timetable_of ledgers.old) moves.now) }
    ensures sizes { looked.new.sizes ≡ looked.old.sizes }
{
    match moves.split_first() {
        None => {}
        Some((mv, later)) => {
            gather_move(inst, ledgers, scratch, mv, looked);
            put_all(inst, ledgers, scratch.writes.as_slice());
            play_in_row_noting(inst, ledgers, later, scratch, looked);
        }
    }
}
