//! The footprint of a write, and the cells that a move looks at, gathered into a list of cells.

ghost use Rattle.std.specs.Prelude.{◌≡◌, ◌<◌, ◌≤◌, option_map, Some, true};
ghost use Rattle.ih_tables.specs.Sizes.{patient_count, room_count, shift_count, nurse_count, sizes_of};
ghost use Rattle.ih_tables.specs.{declared.cells.Cell.Cell, declared.ids.NurseNo.NurseNo};
ghost use Rattle.ih_plan.specs.Footprint.{write_touches, in_placement, in_stay, looks_at};
ghost use Rattle.ih_plan.specs.{Timetable.IsPlanOf, Timetable.IsPlacement, declared.moves.Placement.Placement};
ghost use Rattle.ih_plan.specs.{declared.moves.Write.TheVariants.SetStay, declared.moves.Write.TheVariants.SetCare};
ghost use Rattle.ih_plan.specs.{declared.moves.Move.TheVariants.SwapRooms, declared.moves.Move.TheVariants.SwapNurses};
ghost use Rattle.ih_plan.specs.{Writes.IsWriteOf, Cells.IsCellIn, Present.ArePresent};
ghost use Rattle.ih_footprint.specs.CellsState.{Gathers, settled};
ghost use Rattle.ih_footprint.specs.Pieces.{in_shift, in_days, in_nurse_shifts, in_nurse, in_cares};

use crate::cell_lists::CellList;
use crate::cell_sets::CellSet;
use ih_plan::{Members, Move, Placement, Plan, Write, end_of};
use ih_tables::{Cell, Day, Instance, NurseNo, PatientNo, PersonNo, RoomNo, Shift};

// A room in a shift, and the shift of its nurse.
fn add_shift(inst: &Instance, plan: &Plan, room: RoomNo, shift: Shift, out: &mut CellSet)
    requires plan { IsPlanOf inst.now.draft plan.now }
    requires room { room.0 < room_count inst.now.draft }
    requires shift { shift.0 < shift_count inst.now.draft }
    requires sizes { out.old.sizes ≡ sizes_of inst.now.draft }
    ensures { Gathers out.old out.new (in_shift plan.now room.0 shift.0) }
{
    out.add_cell(Cell::RoomShift(room, shift));
    match plan.care(room, shift) {
        Some(n) => out.add_cell(Cell::NurseShift(n, shift)),
        None => {}
    }
}

// The shifts of a room's nurses, from shift `from` on and before `to`.
fn add_nurse_shifts(
    inst: &Instance,
    plan: &Plan,
    room: RoomNo,
    from: u32,
    to: u32,
    out: &mut CellSet,
)
    requires plan { IsPlanOf inst.now.draft plan.now }
    requires room { room.0 < room_count inst.now.draft }
    requires order { from ≤ to }
    requires shifts { to ≤ shift_count inst.now.draft }
    requires sizes { out.old.sizes ≡ sizes_of inst.now.draft }
    ensures { Gathers out.old out.new (in_nurse_shifts plan.now room.0 from to) }
{
    for k in from..to {
        add_nurse(inst, plan.care(room, Shift(k)), Shift(k), out);
    }
}

// A room on the days from `from` on and before `to` and in their shifts, and the shifts of its nurses.
fn add_days(inst: &Instance, plan: &Plan, room: RoomNo, from: u32, to: u32, out: &mut CellSet)
    requires plan { IsPlanOf inst.now.draft plan.now }
    requires room { room.0 < room_count inst.now.draft }
    requires order { from ≤ to }
    requires day { to ≤ inst.now.draft.days }
    requires days { inst.now.draft.days ≤ 56 }
    requires sizes { out.old.sizes ≡ sizes_of inst.now.draft }
    ensures { Gathers out.old out.new (in_days plan.now room.0 from to) }
{
    out.add_room_days(room, from, to);
    out.add_room_shifts(room, 3 * from, 3 * to);
    add_nurse_shifts(inst, plan, room, 3 * from, 3 * to, out);
}

// The cells of a patient's placement.
fn add_placement(
    inst: &Instance,
    plan: &Plan,
    patient_no: PatientNo,
    at: Placement,
    out: &mut CellSet,
)
    requires plan { IsPlanOf inst.now.draft plan.now }
    requires patient { patient_no.0 < patient_count inst.now.draft }
    requires placement { IsPlacement inst.now.draft at }
    requires sizes { out.old.sizes ≡ sizes_of inst.now.draft }
    ensures { Gathers out.old out.new (in_placement inst.now.draft plan.now patient_no.0 at) }
{
    let patient = inst.patient(patient_no);
    add_days(
        inst,
        plan,
        at.room,
        at.day.0,
        end_of(inst, patient_no, at),
        out,
    );
    out.add_cell(Cell::TheatreDay(at.theatre, at.day));
    out.add_cell(Cell::SurgeonDay(patient.surgeon_id, at.day));
}

// The cells of a patient's placement, where there is one.
fn add_stay(
    inst: &Instance,
    plan: &Plan,
    patient: PatientNo,
    stay: Option<Placement>,
    out: &mut CellSet,
)
    requires plan { IsPlanOf inst.now.draft plan.now }
    requires patient { patient.0 < patient_count inst.now.draft }
    requires placement { (at : Placement) → stay ≡ Some at → IsPlacement inst.now.draft at }
    requires sizes { out.old.sizes ≡ sizes_of inst.now.draft }
    ensures { Gathers out.old out.new (in_stay inst.now.draft plan.now patient.0 stay) }
{
    match stay {
        Some(at) => add_placement(inst, plan, patient, at, out),
        None => {}
    }
}

// The nurses of all who are in a room on a day.
fn add_cares<M: Members>(
    inst: &Instance,
    plan: &Plan,
    members: &M,
    room: RoomNo,
    day: Day,
    out: &mut CellSet,
)
    requires members { ArePresent inst.now.draft plan.now (M.rooms members.now) (M.days members.now)
        (M.persons members.now) }
    requires room { room.0 < room_count inst.now.draft }
    requires day { day.0 < inst.now.draft.days }
    requires sizes { out.old.sizes ≡ sizes_of inst.now.draft }
    ensures { Gathers out.old out.new (in_cares (M.persons members.now room.0 day.0)) }
{
    for i in 0..members.count(room, day) {
        out.add_cell(Cell::Care(members.member(room, day, i)));
    }
}

fn add_nurse(inst: &Instance, nurse: Option<NurseNo>, shift: Shift, out: &mut CellSet)
    requires nurse { (m : NurseNo) → nurse ≡ Some m → m.0 < nurse_count inst.now.draft }
    requires shift { shift.0 < shift_count inst.now.draft }
    requires sizes { out.old.sizes ≡ sizes_of inst.now.draft }
    ensures { Gathers out.old out.new (in_nurse (option_map (λ (m : NurseNo). m.0) nurse) shift.0) }
{
    match nurse {
        Some(m) => out.add_cell(Cell::NurseShift(m, shift)),
        None => {}
    }
}

// The cells of a patient's own, and of the placements before and after.
fn add_set_stay(
    inst: &Instance,
    plan: &Plan,
    patient: PatientNo,
    new: Option<Placement>,
    out: &mut CellSet,
)
    requires plan { IsPlanOf inst.now.draft plan.now }
    requires write { IsWriteOf inst.now.draft (SetStay patient new) }
    requires sizes { out.old.sizes ≡ sizes_of inst.now.draft }
    ensures { Gathers out.old out.new (write_touches inst.now.draft plan.now (SetStay patient new)) }
{
    out.add_cell(Cell::Stay(patient));
    out.add_cell(Cell::Care(PersonNo(patient.0)));
    add_stay(inst, plan, patient, plan.stay(patient), out);
    add_stay(inst, plan, patient, new, out);
}

// The cells of a room's nurse in a shift, before and after.
fn add_set_care<M: Members>(
    inst: &Instance,
    plan: &Plan,
    members: &M,
    room: RoomNo,
    shift: Shift,
    new: Option<NurseNo>,
    out: &mut CellSet,
)
    requires plan { IsPlanOf inst.now.draft plan.now }
    requires write { IsWriteOf inst.now.draft (SetCare room shift new) }
    requires members { ArePresent inst.now.draft plan.now (M.rooms members.now) (M.days members.now)
        (M.persons members.now) }
    requires sizes { out.old.sizes ≡ sizes_of inst.now.draft }
    ensures { Gathers out.old out.new (write_touches inst.now.draft plan.now (SetCare room shift new)) }
{
    add_shift(inst, plan, room, shift, out);
    add_nurse(inst, new, shift, out);
    add_cares(inst, plan, members, room, Day(shift.0 / 3), out);
}

/// Adds the footprint of a write at a timetable, whose present persons the members tell, to a set.
pub fn gather<M: Members>(
    inst: &Instance,
    plan: &Plan,
    members: &M,
    write: &Write,
    out: &mut CellSet,
)
    requires plan { IsPlanOf inst.now.draft plan.now }
    requires write { IsWriteOf inst.now.draft write.now }
    requires members { ArePresent inst.now.draft plan.now (M.rooms members.now) (M.days members.now)
        (M.persons members.now) }
    requires sizes { out.old.sizes ≡ sizes_of inst.now.draft }
    ensures { Gathers out.old out.new (write_touches inst.now.draft plan.now write.now) }
{
    match *write {
        Write::SetStay(p, new) => add_set_stay(inst, plan, p, new, out),
        Write::SetCare(r, k, new) => add_set_care(inst, plan, members, r, k, new, out),
    }
}

/// Adds the footprint of a write at a timetable, whose present persons the members tell, to a list, and lists all cells
/// anew, so that they rise.
pub fn foot<M: Members>(
    inst: &Instance,
    plan: &Plan,
    members: &M,
    write: &Write,
    out: &mut CellList,
)
    requires plan { IsPlanOf inst.now.draft plan.now }
    requires write { IsWriteOf inst.now.draft write.now }
    requires members { ArePresent inst.now.draft plan.now (M.rooms members.now) (M.days members.now)
        (M.persons members.now) }
    requires sizes { out.old.sizes ≡ sizes_of inst.now.draft }
    ensures cells { Gathers out.old out.new (write_touches inst.now.draft plan.now write.now) }
    ensures rising { out.new.cells ≡ settled out.new }
{
    out.set.add_all(&out.room[..out.len]);
    gather(inst, plan, members, write, &mut out.set);
    out.len = out.set.write(out.room.as_mut_slice());
}

// The stays of two patients, where they are two.
fn add_stays(patient: PatientNo, other: PatientNo, out: &mut CellList)
    requires { (c : Cell) → looks_at (SwapRooms patient other) c ≡ true → IsCellIn out.old.sizes c }
    ensures { Gathers out.old out.new (looks_at (SwapRooms patient other)) }
{
    if patient.0 != other.0 {
        out.add_cell(Cell::Stay(patient));
        out.add_cell(Cell::Stay(other));
    }
}

// Two rooms in a shift, where they are two.
fn add_room_shifts(shift: Shift, one: RoomNo, other: RoomNo, out: &mut CellList)
    requires { (c : Cell) → looks_at (SwapNurses shift one other) c ≡ true → IsCellIn out.old.sizes c }
    ensures { Gathers out.old out.new (looks_at (SwapNurses shift one other)) }
{
    if one.0 != other.0 {
        out.add_cell(Cell::RoomShift(one, shift));
        out.add_cell(Cell::RoomShift(other, shift));
    }
}

/// Adds the cells that the writes of a move are chosen by.
pub fn looks(mv: &Move, out: &mut CellList)
    requires { (c : Cell) → looks_at mv.now c ≡ true → IsCellIn out.old.sizes c }
    ensures { Gathers out.old out.new (looks_at mv.now) }
{
    match *mv {
        Move::Withdraw(p) => out.add_cell(Cell::Stay(p)),
        Move::SetDay(p, _) => out.add_cell(Cell::Stay(p)),
        Move::SetRoom(p, _) => out.add_cell(Cell::Stay(p)),
        Move::SetTheatre(p, _) => out.add_cell(Cell::Stay(p)),
        Move::SwapRooms(p, q) => add_stays(p, q, out),
        Move::SwapNurses(k, a, b) => add_room_shifts(k, a, b, out),
        Move::Idle => {}
        Move::Place(_, _) => {}
        Move::Nurse(_, _, _) => {}
        Move::NurseRun(_, _, _, _) => {}
    }
}
