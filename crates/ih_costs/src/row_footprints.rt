//! The footprint of moves in a row: each move's is gathered at the timetable where it would be made.

ghost use Rattle.std.specs.Prelude.{◌≡◌};
ghost use Rattle.ih_tables.specs.Sizes.{sizes_of};
ghost use Rattle.ih_plan.specs.{Writes.put_all, Writes.AreWritesOf, Series.AreMoves, Series.all_touch};
ghost use Rattle.ih_footprint.specs.CellsState.{Gathers};
ghost use Rattle.ih_costs.specs.CellLedgers.{AreLedgers, AreLedgersOf, timetable_of};

use crate::cell_ledgers::CellLedgers;
use crate::footprints::gather_move;
use crate::pricing::{expand_here, put_for_now};
use crate::scratch::Scratch;
use ih_footprint::CellList;
use ih_moves::Writes;
use ih_plan::{Move, Write};
use ih_tables::Instance;

/// Gathers the footprints of moves in a row, once the writes `before` are made: these are taken back in the end. Each
/// move but the last is made too, so that the next one's cells are gathered after it. `looked` is room for the cells
/// that a move's writes are chosen by.
pub fn gather_row(
    inst: &Instance,
    ledgers: &mut CellLedgers,
    before: &[Write],
    moves: &[Move],
    scratch: &mut Scratch,
    looked: &mut CellList,
)
    requires stands { AreLedgers inst.now.draft ledgers.old }
    requires before { AreWritesOf inst.now.draft before.now }
    requires moves { AreMoves inst.now.draft moves.now }
    requires set { scratch.old.set.sizes ≡ sizes_of inst.now.draft }
    requires sizes { looked.old.sizes ≡ sizes_of inst.now.draft }
    ensures stands { AreLedgersOf inst.now.draft (timetable_of ledgers.old) ledgers.new }
    ensures gathers { Gathers scratch.old.set scratch.new.set
        (all_touch inst.now.draft (put_all before.now (timetable_of ledgers.old)) moves.now) }
    ensures sizes { looked.new.sizes ≡ looked.old.sizes }
{
    match before.split_first() {
        Some((w, rest)) => {
            let undo = put_for_now(inst, ledgers, w);
            gather_row(inst, ledgers, rest, moves, scratch, looked);
            ledgers.put(inst, &undo);
        }
        None => match moves.split_first() {
            None => {}
            Some((mv, later)) => {
                gather_move(inst, ledgers, scratch, mv, looked);
                if later.len() == 0 {
                    return;
                }
                // Expanded anew, into a list of its own: the calls after this one write over the other.
                let mut made = Writes::new();
                expand_here(inst, ledgers, mv, &mut made);
                gather_row(inst, ledgers, made.as_slice(), later, scratch, looked);
            }
        },
    }
}
