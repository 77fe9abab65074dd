//! Why a patient who must be admitted can't be.

/// Why a patient who must be admitted can't be: what no day of the window has.
#[derive(Clone, Copy, Debug, PartialEq, Eq)]
pub enum Reason {
    /// The due day is before the release day.
    DueEarly,
    /// The release day is past the last day.
    ReleasedLate,
    /// All rooms are incompatible.
    NoRoom,
    /// No theatre is open for long enough.
    NoTheatre,
    /// The surgeon hasn't enough minutes.
    NoSurgeon,
    /// On a day that each stay has, each room that suits is full, or has another gender in it.
    DayTaken,
    /// Each room that suits is full, or has another gender in it, on a day of each stay.
    RoomsTaken,
    /// No day has all of this.
    NoDay,
}
