//! Ledgers that price moves.

use crate::cell_ledgers::CellLedgers;
use crate::copies::copy_plan;
use crate::footprints::foot_of;
use crate::pricing::{expand_here, price_of, price_of_write, put_all};
use crate::row_footprints::gather_row;
use crate::row_prices::change_by_row;
use crate::scratch::Scratch;
use crate::series::{play_in_row, play_in_row_noting};
use ih_footprint::{CellList, CellSet, Numbering};
use ih_moves::Writes;
use ih_plan::{Members, Move, Plan, Write};
use ih_roomdays::RoomDays;
use ih_tables::{Bill, Cell, Day, Instance, RoomNo};
use ih_theatres::Theatres;
use ih_validate::bill;
use std::alloc::{AllocError, Global};
use std::marker::Model;

/// Ledgers that stand for a timetable of an instance. After `new` no call takes memory.
#[derive(Drop)]
pub struct Ledgers<'a> {
    inst: &'a Instance,
    cells: CellLedgers,
    // No cells are gathered in it between calls.
    scratch: Scratch,
}

impl<'a> Model for Ledgers<'a> {
    ghost use Rattle.ih_costs.specs.{Scratch.IsFree, LedgersState.LedgersState, CellLedgers.AreLedgers};
    ghost use Rattle.ih_costs.specs.{CellLedgers.timetable_of};

    ghost Value = { LedgersState };

    ghost view = { λ l. record { instance = l.inst.now.draft; plan = timetable_of l.cells } };

    ghost invariant = { λ l. AreLedgers l.inst.now.draft l.cells × IsFree l.inst.now.draft l.scratch };
}

impl<'a> Ledgers<'a> {
    ghost use Rattle.std.specs.Prelude.{◌≡◌, ◌<◌, ◌^◌, not, IfOk};
    ghost use Rattle.ih_tables.specs.{Sizes.room_count, Sizes.sizes_of, Bills.IsWithin};
    ghost use Rattle.ih_plan.specs.BillOf.{as_bill, bill_of, change_of_bill};
    ghost use Rattle.ih_plan.specs.Series.{AreMoves, after_all, footprint_of_all, price_of_all};
    ghost use Rattle.ih_plan.specs.{Timetable.IsPlanOf, Writes.put, Writes.IsWriteOf, Expand.after, Expand.IsMoveOf};
    ghost use Rattle.ih_plan.specs.{Cells.IsCellOf, Cells.part_at, Costs.is_empty, Footprint.footprint};
    ghost use Rattle.ih_plan.specs.{Presence.present};
    ghost use Rattle.ih_roomdays.specs.Ledger.{IsLedgerOf as AreRoomDaysOf};
    ghost use Rattle.ih_theatres.specs.Ledger.{IsLedgerOf as AreTheatresOf};

    /// Ledgers that stand for a timetable, which fits the instance.
    pub fn new(alloc: Global, inst: &'a Instance, plan: &Plan) -> Result<Ledgers<'a>, AllocError>
        requires { IsPlanOf inst.now.draft plan.now }
        ensures { IfOk result (λ l. l ≡ record { instance = inst.entry.now.draft; plan = plan.now }) }
    {
        let mut cells = CellLedgers::new(alloc, inst)?;
        copy_plan(inst, &mut cells, plan);
        Ok(Ledgers {
            inst,
            cells,
            scratch: Scratch {
                writes: Writes::new(),
                set: CellSet::new(alloc, Numbering::of(inst))?,
            },
        })
    }

    /// The timetable that the ledgers stand for, which fits the instance.
    pub fn plan(&self) -> &Plan
        ensures value { result.now ≡ self.now.plan }
        ensures fits { IsPlanOf self.now.instance self.now.plan }
    {
        self.cells.plan()
    }

    /// The ledger of room days of that timetable, for looks at who is where.
    #[inline(always)]
    pub fn room_days(&self) -> &RoomDays
        ensures { AreRoomDaysOf self.now.instance self.now.plan result.now }
    {
        &self.cells.room_days
    }

    /// The ledger of theatres of that timetable, for looks at who has surgery where.
    #[inline(always)]
    pub fn theatres(&self) -> &Theatres
        ensures { AreTheatresOf self.now.instance self.now.plan result.now }
    {
        &self.cells.theatres
    }

    /// Whether somebody is in a room on a day.
    pub fn is_occupied(&self, room: RoomNo, day: Day) -> bool
        requires room { room.0 < room_count self.now.instance }
        requires day { day.0 < self.now.instance.days }
        ensures { result ≡ not (is_empty (present self.now.instance self.now.plan room.0 day.0)) }
    {
        self.cells.room_days.count(room, day) > 0
    }

    /// The bill of the whole timetable, summed over all of it. Each number is at most 10^11.
    pub fn total(&self) -> Bill
        ensures value { result ≡ bill_of self.now.instance self.now.plan }
        ensures within { IsWithin (10 ^ 11) result }
    {
        bill(self.inst, self.cells.plan())
    }

    /// A cell's part of that bill: the parts of all cells sum to it, number by number.
    pub fn part(&self, cell: Cell) -> Bill
        requires { IsCellOf self.now.instance cell }
        ensures { result ≡ as_bill (part_at self.now.instance self.now.plan cell) }
    {
        self.cells.part(self.inst, cell)
    }

    /// Makes the ledgers stand for a timetable, which fits the instance, in place of theirs. In time of the whole
    /// timetable.
    pub fn copy_from(&mut self, plan: &Plan)
        requires { IsPlanOf self.old.instance plan.now }
        ensures { self.new ≡ record self.old { plan = plan.now } }
    {
        copy_plan(self.inst, &mut self.cells, plan);
    }

    /// Makes a write.
    pub fn put(&mut self, write: &Write)
        requires { IsWriteOf self.old.instance write.now }
        ensures { self.new ≡ record self.old { plan = put write.now self.old.plan } }
    {
        self.cells.put(self.inst, write);
    }

    /// What a write would add to the bill, number by number: each is at most 10^11 in magnitude. It isn't made.
    pub fn price_write(&self, write: &Write) -> Bill
        requires { IsWriteOf self.now.instance write.now }
        ensures price { result ≡ change_of_bill self.now.instance self.now.plan (put write.now self.now.plan) }
        ensures within { IsWithin (10 ^ 11) result }
    {
        price_of_write(self.inst, &self.cells, write)
    }

    /// Makes a move.
    pub fn play(&mut self, mv: &Move)
        requires { IsMoveOf self.old.instance mv.now }
        ensures { self.new ≡ record self.old { plan = after self.old.instance self.old.plan mv.now } }
    {
        expand_here(self.inst, &self.cells, mv, &mut self.scratch.writes);
        put_all(self.inst, &mut self.cells, self.scratch.writes.as_slice());
    }

    /// What a move would add to the bill, number by number: each is at most 10^11 in magnitude. In place of what was
    /// listed there, `foot` has the cells of the move's footprint, rising. The ledgers stand for the same timetable as
    /// before.
    pub fn price(&mut self, mv: &Move, foot: &mut CellList) -> Bill
        requires move_in { IsMoveOf self.old.instance mv.now }
        requires sizes { foot.old.sizes ≡ sizes_of self.old.instance }
        ensures price { result
            ≡ change_of_bill self.old.instance self.old.plan (after self.old.instance self.old.plan mv.now) }
        ensures within { IsWithin (10 ^ 11) result }
        ensures cells { foot.new.cells ≡ footprint self.old.instance self.old.plan mv.now }
        ensures sizes { foot.new.sizes ≡ foot.old.sizes }
        ensures same { self.new ≡ self.old }
    {
        self.foot(mv, foot);
        price_of(self.inst, &mut self.cells, &mut self.scratch.writes, mv)
    }

    /// Lists the cells of a move's footprint in `foot`, rising, in place of what was listed there.
    pub fn foot(&mut self, mv: &Move, foot: &mut CellList)
        requires move_in { IsMoveOf self.old.instance mv.now }
        requires sizes { foot.old.sizes ≡ sizes_of self.old.instance }
        ensures cells { foot.new.cells ≡ footprint self.old.instance self.old.plan mv.now }
        ensures sizes { foot.new.sizes ≡ foot.old.sizes }
        ensures same { self.new ≡ self.old }
    {
        foot_of(self.inst, &self.cells, &mut self.scratch, mv, foot);
    }

    /// What moves in a row would add to the bill together, number by number: each is at most 10^11 in magnitude. The
    /// ledgers stand for the same timetable as before. A single move is priced as one.
    pub fn price_all_alone(&mut self, moves: &[Move]) -> Bill
        requires { AreMoves self.old.instance moves.now }
        ensures price { result ≡ price_of_all self.old.instance self.old.plan moves.now }
        ensures within { IsWithin (10 ^ 11) result }
        ensures same { self.new ≡ self.old }
    {
        match moves.split_first() {
            Some((mv, later)) if later.len() == 0 => {
                price_of(self.inst, &mut self.cells, &mut self.scratch.writes, mv)
            }
            _ => self.price_row(moves),
        }
    }

    // What moves in a row, however many, would add to the bill together, number by number. The ledgers stay.
    fn price_row(&mut self, moves: &[Move]) -> Bill
        requires { AreMoves self.old.instance moves.now }
        ensures price { result ≡ price_of_all self.old.instance self.old.plan moves.now }
        ensures within { IsWithin (10 ^ 11) result }
        ensures same { self.new ≡ self.old }
    {
        change_by_row(
            self.inst,
            &mut self.cells,
            &[],
            moves,
            &mut self.scratch.writes,
        )
    }

    /// Lists the cells of the footprints of moves in a row in `foot`, rising, in place of what was listed there. Each
    /// move's are those at the timetable where it would be made. A single move's are listed as one's.
    pub fn foot_all(&mut self, moves: &[Move], foot: &mut CellList)
        requires moves { AreMoves self.old.instance moves.now }
        requires sizes { foot.old.sizes ≡ sizes_of self.old.instance }
        ensures cells { foot.new.cells ≡ footprint_of_all self.old.instance self.old.plan moves.now }
        ensures sizes { foot.new.sizes ≡ foot.old.sizes }
        ensures same { self.new ≡ self.old }
    {
        match moves.split_first() {
            Some((mv, later)) if later.len() == 0 => self.foot(mv, foot),
            _ => self.foot_row(moves, foot),
        }
    }

    // Lists the cells of the footprints of moves in a row, however many, in `foot`, rising, in place of the old ones.
    fn foot_row(&mut self, moves: &[Move], foot: &mut CellList)
        requires moves { AreMoves self.old.instance moves.now }
        requires sizes { foot.old.sizes ≡ sizes_of self.old.instance }
        ensures cells { foot.new.cells ≡ footprint_of_all self.old.instance self.old.plan moves.now }
        ensures sizes { foot.new.sizes ≡ foot.old.sizes }
        ensures same { self.new ≡ self.old }
    {
        gather_row(
            self.inst,
            &mut self.cells,
            &[],
            moves,
            &mut self.scratch,
            foot,
        );
        foot.take_from(&mut self.scratch.set);
    }

    /// Makes moves, in order.
    pub fn play_all(&mut self, moves: &[Move])
        requires { AreMoves self.old.instance moves.now }
        ensures { self.new ≡ record self.old { plan = after_all self.old.instance self.old.plan moves.now } }
    {
        play_in_row(self.inst, &mut self.cells, moves, &mut self.scratch.writes);
    }

    /// Makes moves, in order. In place of what was listed there, `foot` has the cells of their footprints, each move's
    /// at the timetable where it is made, rising. It sums no costs.
    pub fn play_all_noting(&mut self, moves: &[Move], foot: &mut CellList)
        requires moves { AreMoves self.old.instance moves.now }
        requires sizes { foot.old.sizes ≡ sizes_of self.old.instance }
        ensures made { self.new ≡ record self.old { plan = after_all self.old.instance self.old.plan moves.now } }
        ensures cells { foot.new.cells ≡ footprint_of_all self.old.instance self.old.plan moves.now }
        ensures sizes { foot.new.sizes ≡ foot.old.sizes }
    {
        play_in_row_noting(self.inst, &mut self.cells, moves, &mut self.scratch, foot);
        foot.take_from(&mut self.scratch.set);
    }
}
