//! The cells of a timetable: the parts that a price may rest on.

use crate::ids::{Day, NurseNo, PatientNo, PersonNo, RoomNo, Shift, SurgeonNo, TheatreNo};

/// A part of a timetable that a move's price may rest on.
#[derive(Clone, Copy, Debug, PartialEq, Eq)]
pub enum Cell {
    /// Where, when and in which operating theatre a patient is treated.
    Stay(PatientNo),
    /// Who is in a room on a day.
    RoomDay(RoomNo, Day),
    /// The surgeries of an operating theatre on a day.
    TheatreDay(TheatreNo, Day),
    /// The surgeries of a surgeon on a day.
    SurgeonDay(SurgeonNo, Day),
    /// The nurse of a room in a shift, and who is there.
    RoomShift(RoomNo, Shift),
    /// The workload of a nurse in a shift.
    NurseShift(NurseNo, Shift),
    /// The nurses that a person sees.
    Care(PersonNo),
}
