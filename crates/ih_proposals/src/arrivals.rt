//! A patient who comes whatever is there.

use ih_plan::Placement;
use ih_tables::{PatientNo, RoomNo};

/// Where those go who are in a patient's way.
#[derive(Clone, Copy)]
pub enum Exit {
    /// They are withdrawn.
    Out,
    /// They go to this room, and two rooms exchange persons.
    To(RoomNo),
}

/// A patient who comes to a placement, and where those go who are in the way there.
#[derive(Clone, Copy)]
pub struct Arrival {
    pub patient: PatientNo,
    pub at: Placement,
    pub exit: Exit,
}
