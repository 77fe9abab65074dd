//! What a move changes in the bill: each of its writes is priced where it would be made.

ghost use Rattle.std.specs.Prelude.{◌≡◌, ◌≤◌, ◌^◌, ◌∷◌, length};
ghost use Rattle.ih_tables.specs.Bills.{IsWithin};
ghost use Rattle.ih_plan.specs.Writes.{put, put_all, IsWriteOf, AreWritesOf};
ghost use Rattle.ih_plan.specs.Expand.{after, expand, IsMoveOf};
ghost use Rattle.ih_plan.specs.{Timetable.IsPlanOf, BillOf.change_of_bill};
ghost use Rattle.ih_costs.specs.CellLedgers.{AreLedgers, AreLedgersOf, timetable_of};
ghost use Rattle.ih_costs.specs.Undo.{undo_of};

use crate::cell_ledgers::CellLedgers;
use ih_moves::{Writes, expand};
use ih_plan::{Move, Plan, Write};
use ih_tables::{Bill, Instance};

/// The writes of a move at the ledgers' timetable, in place of what `writes` held.
#[inline(always)]
pub fn expand_here(inst: &Instance, ledgers: &CellLedgers, mv: &Move, writes: &mut Writes)
    requires stands { AreLedgers inst.now.draft ledgers.now }
    requires move_in { IsMoveOf inst.now.draft mv.now }
    ensures made { writes.new ≡ expand inst.now.draft (timetable_of ledgers.now) mv.now }
    ensures fits { AreWritesOf inst.now.draft writes.new }
    ensures few { length writes.new ≤ 21 }
{
    expand(inst, ledgers.plan(), mv, writes);
}

// The write that brings back what a write replaces.
fn undo_of(inst: &Instance, plan: &Plan, write: &Write) -> Write
    requires plan { IsPlanOf inst.now.draft plan.now }
    requires write { IsWriteOf inst.now.draft write.now }
    ensures { result ≡ undo_of plan.now write.now }
{
    match *write {
        Write::SetStay(p, _) => Write::SetStay(p, plan.stay(p)),
        Write::SetCare(r, k, _) => Write::SetCare(r, k, plan.care(r, k)),
    }
}

/// Makes a write, and tells the one that takes it back.
#[inline(always)]
pub fn put_for_now(inst: &Instance, ledgers: &mut CellLedgers, write: &Write) -> Write
    requires stands { AreLedgers inst.now.draft ledgers.old }
    requires write { IsWriteOf inst.now.draft write.now }
    ensures stands { AreLedgersOf inst.now.draft (put write.now (timetable_of ledgers.old)) ledgers.new }
    ensures undo { result ≡ undo_of (timetable_of ledgers.old) write.now }
    ensures fits { IsWriteOf inst.now.draft result }
{
    let undo = undo_of(inst, ledgers.plan(), write);
    ledgers.put(inst, write);
    undo
}

/// Makes writes, in order.
pub fn put_all(inst: &Instance, ledgers: &mut CellLedgers, writes: &[Write])
    requires stands { AreLedgers inst.now.draft ledgers.old }
    requires writes { AreWritesOf inst.now.draft writes.now }
    ensures { AreLedgersOf inst.now.draft (put_all writes.now (timetable_of ledgers.old)) ledgers.new }
{
    for w in writes {
        ledgers.put(inst, w);
    }
}

/// What a write changes in the bill. It isn't made, and its cells aren't listed.
pub fn price_of_write(inst: &Instance, ledgers: &CellLedgers, write: &Write) -> Bill
    requires stands { AreLedgers inst.now.draft ledgers.now }
    requires write { IsWriteOf inst.now.draft write.now }
    ensures price { result
        ≡ change_of_bill inst.now.draft (timetable_of ledgers.now) (put write.now (timetable_of ledgers.now)) }
    ensures within { IsWithin (10 ^ 11) result }
{
    match *write {
        Write::SetStay(p, stay) => ledgers.stay_price(inst, p, stay),
        Write::SetCare(r, k, n) => ledgers.choice_price(inst, r, k, n),
    }
}

// What writes change in the bill, the first of them and the rest. Each but the last is made, so that the next is priced
// after it, and taken back.
fn change_in_turn(inst: &Instance, ledgers: &mut CellLedgers, write: &Write, rest: &[Write]) -> Bill
    requires stands { AreLedgers inst.now.draft ledgers.old }
    requires write { IsWriteOf inst.now.draft write.now }
    requires writes { AreWritesOf inst.now.draft rest.now }
    ensures stands { AreLedgersOf inst.now.draft (timetable_of ledgers.old) ledgers.new }
    ensures change { result
        ≡ change_of_bill inst.now.draft (timetable_of ledgers.old)
        (put_all (write.now ∷ rest.now) (timetable_of ledgers.old)) }
{
    let here = price_of_write(inst, ledgers, write);
    match rest.split_first() {
        None => here,
        Some((next, later)) => {
            let undo = put_for_now(inst, ledgers, write);
            let further = change_in_turn(inst, ledgers, next, later);
            ledgers.put(inst, &undo);
            here.add(&further)
        }
    }
}

// What a move's writes change in the bill. A single write isn't made.
fn change_after(inst: &Instance, ledgers: &mut CellLedgers, writes: &[Write]) -> Bill
    requires stands { AreLedgers inst.now.draft ledgers.old }
    requires writes { AreWritesOf inst.now.draft writes.now }
    ensures stands { AreLedgersOf inst.now.draft (timetable_of ledgers.old) ledgers.new }
    ensures change { result
        ≡ change_of_bill inst.now.draft (timetable_of ledgers.old) (put_all writes.now (timetable_of ledgers.old)) }
{
    match writes.split_first() {
        None => Bill::zero(),
        Some((w, rest)) => change_in_turn(inst, ledgers, w, rest),
    }
}

/// What a move adds to the bill, number by number. The ledgers stand for the same timetable as before.
#[inline(always)]
pub fn price_of(inst: &Instance, ledgers: &mut CellLedgers, writes: &mut Writes, mv: &Move) -> Bill
    requires stands { AreLedgers inst.now.draft ledgers.old }
    requires move_in { IsMoveOf inst.now.draft mv.now }
    ensures price { result
        ≡ change_of_bill inst.now.draft (timetable_of ledgers.old)
        (after inst.now.draft (timetable_of ledgers.old) mv.now) }
    ensures within { IsWithin (10 ^ 11) result }
    ensures stands { AreLedgersOf inst.now.draft (timetable_of ledgers.old) ledgers.new }
{
    expand_here(inst, ledgers, mv, writes);
    change_after(inst, ledgers, writes.as_slice())
}
