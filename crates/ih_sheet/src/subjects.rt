//! What a table is about.

/// What a table is about.
#[derive(Clone, Copy, Debug, PartialEq, Eq)]
pub enum Subject {
    /// A row for each patient.
    Patients,
    /// A row for each nurse and shift.
    Nurses,
    /// A row for each room and day.
    Rooms,
    /// A row for each surgery, by theatre and day.
    Theatres,
    /// An event of a calendar for each surgery, likewise.
    Calendar,
}
