//! The rooms that a patient fits into from a day on.

ghost use Rattle.std.specs.Prelude.{◌<◌, IfSome};
ghost use Rattle.ih_tables.specs.Sizes.{patient_count, room_count, theatre_count};
ghost use Rattle.ih_plan.specs.{Expand.IsMoveOf, Series.AreMoves};

use crate::beds::fits;
use crate::free_rooms::{RoomSet, only};
use crate::situation::Situation;
use ih_moves::Chain;
use ih_plan::{Move, Placement};
use ih_tables::{Day, Instance, PatientNo, RoomNo, TheatreNo};

// Whether the stay is in that room from that day on.
fn is_in(stay: Option<Placement>, day: Day, room: RoomNo) -> bool {
    match stay {
        None => false,
        Some(at) => at.day.0 == day.0 && at.room.0 == room.0,
    }
}

// The room of a patient's stay, or none.
fn room_now(here: &Situation<'_>, patient: PatientNo) -> RoomSet
    requires { patient.0 < patient_count here.now.inst.now.draft }
{
    match here.stay(patient) {
        None => 0,
        Some(at) => only(at.room),
    }
}

// The rooms that a move's patient leaves or comes to.
fn rooms_of_move(here: &Situation<'_>, mv: Move) -> RoomSet
    requires { IsMoveOf here.now.inst.now.draft mv }
{
    match mv {
        Move::Place(p, at) => room_now(here, p) | only(at.room),
        Move::SetRoom(p, room) => room_now(here, p) | only(room),
        Move::Withdraw(p) => room_now(here, p),
        _ => 0,
    }
}

// The rooms whose beds the words don't tell: the patient's own, and those whose persons the attempt changes.
fn rooms_to_look_at(here: &Situation<'_>, patient: PatientNo, attempt: &Chain) -> RoomSet
    requires patient { patient.0 < patient_count here.now.inst.now.draft }
    requires moves { AreMoves here.now.inst.now.draft attempt.now }
{
    let mut rooms = room_now(here, patient);
    for i in 0..attempt.len() {
        rooms |= rooms_of_move(here, attempt.at(here.inst, i));
    }
    rooms
}

// All rooms.
fn all_rooms(inst: &Instance) -> RoomSet {
    u128::MAX >> (128u32.saturating_sub(inst.rooms()) % 128)
}

/// The rooms that a patient fits into from a day on, as far as they weren't told yet.
#[derive(Clone, Copy)]
pub struct Fitting {
    // The rooms that may fit.
    left: RoomSet,
    // Those of them at which a look is needed.
    to_look_at: RoomSet,
    // The room that is told first.
    first: u32,
}

impl Fitting {
    /// All of them, beside those who are there once the attempt is made. They are told from `first` on, then from 0.
    pub fn new(
        here: &Situation<'_>,
        patient: PatientNo,
        day: Day,
        first: u32,
        attempt: &Chain,
    ) -> Fitting
        requires patient { patient.0 < patient_count here.now.inst.now.draft }
        requires moves { AreMoves here.now.inst.now.draft attempt.now }
    {
        let told = match here.free {
            None => None,
            Some(free) => free.rooms_for(here.inst, patient, day),
        };
        match told {
            None => Fitting {
                left: all_rooms(here.inst),
                to_look_at: u128::MAX,
                first,
            },
            Some(sure) => {
                let to_look_at = rooms_to_look_at(here, patient, attempt);
                Fitting {
                    left: sure | to_look_at,
                    to_look_at,
                    first,
                }
            }
        }
    }

    // The next room that may fit; behind the last one a number that no room has.
    fn advance(&mut self) -> RoomNo {
        let later = self.left & (u128::MAX << (self.first % 128));
        let rooms = if later == 0 { self.left } else { later };
        let room = RoomNo(rooms.trailing_zeros());
        self.left &= !only(room);
        room
    }

    /// The next of them. If the patient comes on that day already, its own room isn't one.
    pub fn next(
        &mut self,
        here: &Situation<'_>,
        patient: PatientNo,
        day: Day,
        attempt: &Chain,
    ) -> Option<RoomNo>
        requires patient { patient.0 < patient_count here.now.inst.now.draft }
        requires day { day.0 < here.now.inst.now.draft.days }
        requires theatres { 0 < theatre_count here.now.inst.now.draft }
        requires moves { AreMoves here.now.inst.now.draft attempt.now }
        ensures { IfSome result (λ r. r.0 < room_count here.now.inst.now.draft) }
    {
        let rooms = here.inst.rooms();
        let old = here.stay(patient);
        for _ in 0..128 {
            let room = self.advance();
            if room.0 >= rooms {
                return None;
            }
            let at = Placement {
                day,
                room,
                theatre: TheatreNo(0),
            };
            let is_sure = self.to_look_at & only(room) == 0;
            if !is_in(old, day, room) && (is_sure || fits(here, patient, at, attempt)) {
                return Some(room);
            }
        }
        None
    }
}
