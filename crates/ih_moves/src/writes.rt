//! The writes of a move at a timetable.

ghost use Rattle.std.specs.Prelude.{◌≡◌, ◌<◌, ◌≤◌, ◌+◌, ◌++◌, ◌∷◌, [], length, if◌then◌else◌};
ghost use Rattle.ih_tables.specs.Sizes.{shift_count, nurse_count};
ghost use Rattle.ih_plan.specs.Timetable.{IsPlanOf, stay_of};
ghost use Rattle.ih_plan.specs.Expand.{expand, in_run, IsMoveOf, swap_stays};
ghost use Rattle.ih_moves.specs.Runs.{run_below};

use ih_plan::{Move, Placement, Plan, Write, nurse_at};
use ih_tables::{Day, Instance, NurseNo, PatientNo, RoomNo, Shift, TheatreNo};
use std::marker::Model;

/// Up to 64 writes, in the order in which they are made. It takes no memory.
#[derive(Drop)]
pub struct Writes {
    items: [Write; 64],
    len: usize,
}

impl Model for Writes {
    ghost use Rattle.std.specs.Prelude.{List as Items, take, ◌≤◌};
    ghost use Rattle.ih_plan.specs.declared.moves.Write.{Write as One};

    ghost Value = { Items One };

    ghost view = { λ w. take w.len w.items };

    ghost invariant = { λ w. w.len ≤ 64 };
}

impl Writes {
    ghost use Rattle.std.specs.Prelude.{◌≡◌, ◌<◌, ◌++◌, ◌∷◌, [], length};

    /// No writes yet.
    pub fn new() -> Writes
        ensures { result ≡ [] }
    {
        Writes {
            items: [Write::SetStay(PatientNo(0), None); 64],
            len: 0,
        }
    }

    /// The writes, in order.
    pub fn as_slice(&self) -> &[Write]
        ensures { result.now ≡ self.now }
    {
        &self.items[..self.len]
    }

    fn clear(&mut self)
        ensures { self.new ≡ [] }
    {
        self.len = 0;
    }

    fn push(&mut self, write: Write)
        requires { length self.old < 64 }
        ensures { self.new ≡ self.old ++ write ∷ [] }
    {
        self.items[self.len] = write;
        self.len += 1;
    }
}

fn is_in_run(inst: &Instance, nurse: NurseNo, day: Day, len: u32, shift: u32) -> bool
    requires nurse { nurse.0 < nurse_count inst.now.draft }
    requires day { day.0 < inst.now.draft.days }
    requires len { len ≤ 7 }
    requires shift { shift < shift_count inst.now.draft }
    ensures { result ≡ in_run inst.now.draft nurse day.0 len shift }
{
    inst.works(nurse, Shift(shift)).is_some() && day.0 <= shift / 3 && shift / 3 < day.0 + len
}

#[tactic(auto, using(crate::proofs::RunLemmas::run_steps))]
fn put_run(inst: &Instance, nurse: NurseNo, room: RoomNo, day: Day, len: u32, out: &mut Writes)
    requires nurse { nurse.0 < nurse_count inst.now.draft }
    requires day { day.0 < inst.now.draft.days }
    requires len { len ≤ 7 }
    requires empty { out.old ≡ [] }
    ensures made { out.new ≡ run_below inst.now.draft nurse room day.0 len (shift_count inst.now.draft) }
    ensures few { length out.new ≤ 21 }
{
    let end = (3 * (day.0 + len)).min(inst.shifts());
    for k in 3 * day.0..end {
        put_where(
            is_in_run(inst, nurse, day, len, k),
            Write::SetCare(room, Shift(k), Some(nurse)),
            out,
        );
    }
}

fn put_where(wanted: bool, write: Write, out: &mut Writes)
    requires { length out.old < 64 }
    ensures made { out.new ≡ (if wanted then out.old ++ write ∷ [] else out.old) }
    ensures few { length out.new ≤ length out.old + 1 }
{
    if wanted {
        out.push(write);
    }
}

fn put_swapped_rooms(plan: &Plan, patient: PatientNo, other: PatientNo, out: &mut Writes)
    requires patient { patient.0 < length plan.now.stays }
    requires other { other.0 < length plan.now.stays }
    requires empty { out.old ≡ [] }
    ensures made { out.new ≡ swap_stays patient other (stay_of plan.now patient.0) (stay_of plan.now other.0) }
    ensures few { length out.new ≤ 2 }
{
    match (plan.stay(patient), plan.stay(other)) {
        (Some(a), Some(b)) => {
            out.push(Write::SetStay(patient, Some(in_room(a, b.room))));
            out.push(Write::SetStay(other, Some(in_room(b, a.room))));
        }
        _ => {}
    }
}

fn on_day(at: Placement, day: Day) -> Placement
    ensures { result ≡ record at { day = day } }
{
    Placement {
        day,
        room: at.room,
        theatre: at.theatre,
    }
}

fn in_room(at: Placement, room: RoomNo) -> Placement
    ensures { result ≡ record at { room = room } }
{
    Placement {
        day: at.day,
        room,
        theatre: at.theatre,
    }
}

fn in_theatre(at: Placement, theatre: TheatreNo) -> Placement
    ensures { result ≡ record at { theatre = theatre } }
{
    Placement {
        day: at.day,
        room: at.room,
        theatre,
    }
}

/// The writes of a move at a timetable, in place of what `out` held. A run of seven days has the most: 21. A move of a
/// patient who is not admitted, other than a placement, has none. The plan and the move are in range of the instance.
#[tactic(auto, unfolding(ih_plan::specs::Expand::expand, crate::specs::Runs::run_below))]
pub fn expand(inst: &Instance, plan: &Plan, mv: &Move, out: &mut Writes)
    requires plan { IsPlanOf inst.now.draft plan.now }
    requires move_in { IsMoveOf inst.now.draft mv.now }
    ensures made { out.new ≡ expand inst.now.draft plan.now mv.now }
    ensures few { length out.new ≤ 21 }
{
    out.clear();
    match *mv {
        Move::Idle => {}
        Move::Place(p, at) => out.push(Write::SetStay(p, Some(at))),
        Move::Withdraw(p) => match plan.stay(p) {
            None => {}
            Some(_) => out.push(Write::SetStay(p, None)),
        },
        Move::SetDay(p, day) => match plan.stay(p) {
            None => {}
            Some(at) => out.push(Write::SetStay(p, Some(on_day(at, day)))),
        },
        Move::SetRoom(p, room) => match plan.stay(p) {
            None => {}
            Some(at) => out.push(Write::SetStay(p, Some(in_room(at, room)))),
        },
        Move::SetTheatre(p, theatre) => match plan.stay(p) {
            None => {}
            Some(at) => out.push(Write::SetStay(p, Some(in_theatre(at, theatre)))),
        },
        Move::SwapRooms(p, q) => {
            if p.0 != q.0 {
                put_swapped_rooms(plan, p, q, out)
            }
        }
        Move::Nurse(r, k, n) => out.push(Write::SetCare(r, k, Some(n))),
        Move::NurseRun(n, r, d, len) => put_run(inst, n, r, d, len, out),
        Move::SwapNurses(k, a, b) => {
            if a.0 != b.0 {
                let first = nurse_at(inst, plan, b, k);
                let second = nurse_at(inst, plan, a, k);
                out.push(Write::SetCare(a, k, first));
                out.push(Write::SetCare(b, k, second));
            }
        }
    }
}
