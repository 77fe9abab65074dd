//! What moves in a row change in the bill: each is priced where it would be made.

ghost use Rattle.std.specs.Prelude.{◌≡◌};
ghost use Rattle.ih_plan.specs.{Writes.put_all, Writes.AreWritesOf, Series.AreMoves, Series.price_of_all};
ghost use Rattle.ih_costs.specs.CellLedgers.{AreLedgers, AreLedgersOf, timetable_of};

use crate::cell_ledgers::CellLedgers;
use crate::pricing::{expand_here, price_of, put_for_now};
use ih_moves::Writes;
use ih_plan::{Move, Write};
use ih_tables::{Bill, Instance};

/// What moves in a row change in the bill, once the writes `before` are made: these are taken back in the end. Each
/// move but the last is made too, so that the next is priced after it. `writes` is room for the writes of one move.
pub fn change_by_row(
    inst: &Instance,
    ledgers: &mut CellLedgers,
    before: &[Write],
    moves: &[Move],
    writes: &mut Writes,
) -> Bill
    requires stands { AreLedgers inst.now.draft ledgers.old }
    requires before { AreWritesOf inst.now.draft before.now }
    requires moves { AreMoves inst.now.draft moves.now }
    ensures stands { AreLedgersOf inst.now.draft (timetable_of ledgers.old) ledgers.new }
    ensures change { result ≡ price_of_all inst.now.draft (put_all before.now (timetable_of ledgers.old)) moves.now }
{
    match before.split_first() {
        Some((w, rest)) => {
            let undo = put_for_now(inst, ledgers, w);
            let change = change_by_row(inst, ledgers, rest, moves, writes);
            ledgers.put(inst, &undo);
            change
        }
        None => match moves.split_first() {
            None => Bill::zero(),
            Some((mv, later)) => {
                let here = price_of(inst, ledgers, writes, mv);
                if later.len() == 0 {
                    return here;
                }
                // Expanded anew, into a list of its own: the calls after this one write over the other.
                let mut made = Writes::new();
                expand_here(inst, ledgers, mv, &mut made);
                let further = change_by_row(inst, ledgers, made.as_slice(), later, writes);
                here.add(&further)
            }
        },
    }
}
