//! What is likely a slip.

/// What is likely a slip, of one thing of an instance.
#[derive(Clone, Copy, Debug, PartialEq, Eq)]
pub enum Slip {
    /// The name of an age group differs from that of an earlier one by upper and lower case or by spaces alone.
    RespeltAgeGroup,
    /// So does the gender of a person from that of an earlier one.
    RespeltGender,
    /// The weight of a cost is 0.
    NoWeight,
    /// A surgeon has patients, and no minutes on any day.
    IdleSurgeon,
    /// A theatre is open on no day.
    ShutTheatre,
    /// A room has no occupant, and has no bed or suits no patient.
    UselessRoom,
    /// A nurse works no shift.
    IdleNurse,
    /// All rooms are incompatible with a patient.
    RoomlessPatient,
    /// The due day of a patient is before the release day.
    EarlyPatient,
}
