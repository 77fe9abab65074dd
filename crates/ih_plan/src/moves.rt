//! Placements, single writes to a timetable, and moves.

use ih_tables::{Day, NurseNo, PatientNo, RoomNo, Shift, TheatreNo};

/// Where an admitted patient is: in one room from the admission day for the length of stay, and in surgery in one
/// theatre on the admission day.
#[derive(Clone, Copy, Debug, PartialEq, Eq)]
pub struct Placement {
    pub day: Day,
    pub room: RoomNo,
    pub theatre: TheatreNo,
}

/// One entry of a timetable and what is to stand there.
#[derive(Clone, Copy, Debug, PartialEq, Eq)]
pub enum Write {
    /// A patient's placement, or none where the patient isn't admitted.
    SetStay(PatientNo, Option<Placement>),
    /// A room's nurse in a shift, or none.
    SetCare(RoomNo, Shift, Option<NurseNo>),
}

/// A change that a worker tries: `expand` of `ih_moves` says which writes it makes.
#[derive(Clone, Copy, Debug, PartialEq, Eq)]
pub enum Move {
    /// Changes nothing.
    Idle,
    /// Places the patient there, admitted or not.
    Place(PatientNo, Placement),
    /// Takes the patient out.
    Withdraw(PatientNo),
    /// Another admission day for an admitted patient.
    SetDay(PatientNo, Day),
    /// Another room for an admitted patient.
    SetRoom(PatientNo, RoomNo),
    /// Another theatre for an admitted patient.
    SetTheatre(PatientNo, TheatreNo),
    /// Two admitted patients take each other's room.
    SwapRooms(PatientNo, PatientNo),
    /// The nurse takes the room in the shift, whether or not the nurse works it.
    Nurse(RoomNo, Shift, NurseNo),
    /// The nurse takes the room in each shift that the nurse works, on 1 to 7 days from this one on.
    NurseRun(NurseNo, RoomNo, Day, u32),
    /// Two rooms take each other's nurse in the shift.
    SwapNurses(Shift, RoomNo, RoomNo),
}
