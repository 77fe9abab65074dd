//! Numbers of the things of an instance, in the order of its lists, from 0.

/// A patient's number.
#[derive(Clone, Copy, Debug, PartialEq, Eq)]
pub struct PatientNo(pub u32);

/// A room's number.
#[derive(Clone, Copy, Debug, PartialEq, Eq)]
pub struct RoomNo(pub u32);

/// An operating theatre's number.
#[derive(Clone, Copy, Debug, PartialEq, Eq)]
pub struct TheatreNo(pub u32);

/// A surgeon's number.
#[derive(Clone, Copy, Debug, PartialEq, Eq)]
pub struct SurgeonNo(pub u32);

/// A nurse's number.
#[derive(Clone, Copy, Debug, PartialEq, Eq)]
pub struct NurseNo(pub u32);

/// A patient's number, or the number of patients plus an occupant's number.
#[derive(Clone, Copy, Debug, PartialEq, Eq)]
pub struct PersonNo(pub u32);

/// A day of the horizon.
#[derive(Clone, Copy, Debug, PartialEq, Eq)]
pub struct Day(pub u32);

/// A shift of the horizon, three times the day plus the shift type.
#[derive(Clone, Copy, Debug, PartialEq, Eq)]
pub struct Shift(pub u32);
