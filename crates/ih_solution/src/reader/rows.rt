//! What the items of a solution file say.

use ih_plan::Placement;
use ih_tables::{List, NurseNo, PatientNo, RoomNo, Shift};

/// A listed patient, with the placement where admitted.
#[derive(Clone, Copy, Debug, PartialEq, Eq)]
pub struct ListedStay {
    pub patient: PatientNo,
    pub stay: Option<Placement>,
}

/// The rooms that a nurse has in one shift.
#[derive(Drop)]
pub struct Assignment {
    pub shift: Shift,
    pub rooms: List<RoomNo>,
}

/// A listed nurse, with the nurse's assignments.
#[derive(Drop)]
pub struct ListedNurse {
    pub nurse: NurseNo,
    pub assignments: List<Assignment>,
}
