//! The numbers of the cells of the ward of two patients.

ghost use Rattle.std.specs.Prelude.{◌<◌};
ghost use Rattle.ih_plan.specs.Cells.{count_in};
ghost use Rattle.ih_fixtures.specs.Two.{IsOfTwo};

use ih_fixtures::on_two_patients;
use ih_footprint::Numbering;
use ih_tables::{Cell, Instance, NurseNo, PersonNo, RoomNo, Shift};

// The number is the cell's, and the cell the number's.
fn are_paired(numbering: &Numbering, number: u32, cell: Cell) -> bool
    requires { number < count_in numbering.now }
{
    let found = numbering.cell(number);
    found == cell && numbering.number(found) == number
}

fn are_numbered(inst: &Instance) -> bool
    requires { IsOfTwo inst.now.draft }
{
    let numbering = Numbering::of(inst);
    numbering.count() == 39
        && are_paired(&numbering, 14, Cell::RoomShift(RoomNo(0), Shift(2)))
        && are_paired(&numbering, 32, Cell::NurseShift(NurseNo(1), Shift(2)))
        && are_paired(&numbering, 38, Cell::Care(PersonNo(2)))
}

#[test]
fn cells_are_numbered_by_kind(rt: HostRuntime) {
    assert!(rt; on_two_patients(rt.alloc(), are_numbered));
}
