//! Moves and cells by their names and numbers, and whether they are in range of an instance.

ghost use Rattle.std.specs.Prelude.{◌≡◌, ◌↔◌, IsTrue};
ghost use Rattle.std.specs.Str.{bytes_eq};
ghost use Rattle.ih_plan.specs.{Expand.IsMoveOf, Cells.IsCellOf};
ghost use Rattle.ih_journal.specs.Names.{
  by_name,
  moves_of_one,
  moves_of_two,
  moves_of_three,
  moves_of_four,
  move_named,
};
ghost use Rattle.ih_journal.specs.Names.{cells_of_one, cells_of_two, cell_named};

use ih_plan::{Move, Placement};
use ih_tables::{
    Cell, Day, Instance, NurseNo, PatientNo, PersonNo, RoomNo, Shift, SurgeonNo, TheatreNo,
};

/// Whether a name is this text.
pub fn is(name: &[u8], text: &str) -> bool
    ensures { result ≡ bytes_eq name.now text.now }
{
    name == text.as_bytes()
}

fn move_of_one(name: &[u8], first: u32) -> Option<Move>
    ensures { result ≡ by_name name.now (moves_of_one first) }
{
    if is(name, "withdraw") {
        Some(Move::Withdraw(PatientNo(first)))
    } else {
        None
    }
}

fn move_of_two(name: &[u8], first: u32, second: u32) -> Option<Move>
    ensures { result ≡ by_name name.now (moves_of_two first second) }
{
    if is(name, "setday") {
        Some(Move::SetDay(PatientNo(first), Day(second)))
    } else if is(name, "setroom") {
        Some(Move::SetRoom(PatientNo(first), RoomNo(second)))
    } else if is(name, "settheatre") {
        Some(Move::SetTheatre(PatientNo(first), TheatreNo(second)))
    } else if is(name, "swaprooms") {
        Some(Move::SwapRooms(PatientNo(first), PatientNo(second)))
    } else {
        None
    }
}

fn move_of_three(name: &[u8], first: u32, second: u32, third: u32) -> Option<Move>
    ensures { result ≡ by_name name.now (moves_of_three first second third) }
{
    if is(name, "nurse") {
        Some(Move::Nurse(RoomNo(first), Shift(second), NurseNo(third)))
    } else if is(name, "swapnurses") {
        Some(Move::SwapNurses(Shift(first), RoomNo(second), RoomNo(third)))
    } else {
        None
    }
}

fn move_of_four(name: &[u8], first: u32, second: u32, third: u32, fourth: u32) -> Option<Move>
    ensures { result ≡ by_name name.now (moves_of_four first second third fourth) }
{
    if is(name, "place") {
        let at = Placement {
            day: Day(second),
            room: RoomNo(third),
            theatre: TheatreNo(fourth),
        };
        Some(Move::Place(PatientNo(first), at))
    } else if is(name, "nurserun") {
        Some(Move::NurseRun(NurseNo(first), RoomNo(second), Day(third), fourth))
    } else {
        None
    }
}

/// The move with a name and numbers.
#[tactic(auto, unfolding(crate::specs::Names::move_named))]
pub fn move_named(name: &[u8], numbers: &[u32]) -> Option<Move>
    ensures { result ≡ move_named name.now numbers.now }
{
    match numbers.len() {
        1 => move_of_one(name, numbers[0]),
        2 => move_of_two(name, numbers[0], numbers[1]),
        3 => move_of_three(name, numbers[0], numbers[1], numbers[2]),
        4 => move_of_four(name, numbers[0], numbers[1], numbers[2], numbers[3]),
        _ => None,
    }
}

fn cell_of_one(name: &[u8], first: u32) -> Option<Cell>
    ensures { result ≡ by_name name.now (cells_of_one first) }
{
    if is(name, "stay") {
        Some(Cell::Stay(PatientNo(first)))
    } else if is(name, "care") {
        Some(Cell::Care(PersonNo(first)))
    } else {
        None
    }
}

fn cell_of_two(name: &[u8], first: u32, second: u32) -> Option<Cell>
    ensures { result ≡ by_name name.now (cells_of_two first second) }
{
    if is(name, "roomday") {
        Some(Cell::RoomDay(RoomNo(first), Day(second)))
    } else if is(name, "theatreday") {
        Some(Cell::TheatreDay(TheatreNo(first), Day(second)))
    } else if is(name, "surgeonday") {
        Some(Cell::SurgeonDay(SurgeonNo(first), Day(second)))
    } else if is(name, "roomshift") {
        Some(Cell::RoomShift(RoomNo(first), Shift(second)))
    } else if is(name, "nurseshift") {
        Some(Cell::NurseShift(NurseNo(first), Shift(second)))
    } else {
        None
    }
}

/// The cell with a name and numbers.
#[tactic(auto, unfolding(crate::specs::Names::cell_named))]
pub fn cell_named(name: &[u8], numbers: &[u32]) -> Option<Cell>
    ensures { result ≡ cell_named name.now numbers.now }
{
    match numbers.len() {
        1 => cell_of_one(name, numbers[0]),
        2 => cell_of_two(name, numbers[0], numbers[1]),
        _ => None,
    }
}

/// Whether each number of a move is in range of the instance.
pub fn has_move(inst: &Instance, mv: &Move) -> bool
    ensures { IsTrue result ↔ IsMoveOf inst.now.draft mv.now }
{
    match *mv {
        Move::Idle => true,
        Move::Place(p, at) => {
            p.0 < inst.patients()
                && at.day.0 < inst.days()
                && at.room.0 < inst.rooms()
                && at.theatre.0 < inst.theatres()
        }
        Move::Withdraw(p) => p.0 < inst.patients(),
        Move::SetDay(p, d) => p.0 < inst.patients() && d.0 < inst.days(),
        Move::SetRoom(p, r) => p.0 < inst.patients() && r.0 < inst.rooms(),
        Move::SetTheatre(p, t) => p.0 < inst.patients() && t.0 < inst.theatres(),
        Move::SwapRooms(p, q) => p.0 < inst.patients() && q.0 < inst.patients(),
        Move::Nurse(r, k, n) => r.0 < inst.rooms() && k.0 < inst.shifts() && n.0 < inst.nurses(),
        Move::NurseRun(n, r, d, len) => {
            n.0 < inst.nurses() && r.0 < inst.rooms() && d.0 < inst.days() && 1 <= len && len <= 7
        }
        Move::SwapNurses(k, a, b) => k.0 < inst.shifts()
            && a.0 < inst.rooms()
            && b.0 < inst.rooms(),
    }
}

/// Whether a cell is one of the instance.
pub fn has_cell(inst: &Instance, cell: &Cell) -> bool
    ensures { IsTrue result ↔ IsCellOf inst.now.draft cell.now }
{
    match *cell {
        Cell::Stay(p) => p.0 < inst.patients(),
        Cell::RoomDay(r, d) => r.0 < inst.rooms() && d.0 < inst.days(),
        Cell::TheatreDay(t, d) => t.0 < inst.theatres() && d.0 < inst.days(),
        Cell::SurgeonDay(s, d) => s.0 < inst.surgeons() && d.0 < inst.days(),
        Cell::RoomShift(r, k) => r.0 < inst.rooms() && k.0 < inst.shifts(),
        Cell::NurseShift(n, k) => n.0 < inst.nurses() && k.0 < inst.shifts(),
        Cell::Care(x) => x.0 < inst.persons(),
    }
}
