//! The seventeen numbers of a bill by name: the place of each.

// In `Bill::v`, the broken rules.

/// Rooms and days with two genders.
pub const MIXED_GENDER: usize = 0;
/// Patients in a room that is incompatible.
pub const INCOMPATIBLE_ROOM: usize = 1;
/// Minutes of surgery above a surgeon's maximum of a day.
pub const SURGEON_OVERRUN: usize = 2;
/// Minutes of surgery above a theatre's availability of a day.
pub const THEATRE_OVERRUN: usize = 3;
/// Mandatory patients who aren't admitted.
pub const UNSCHEDULED_MANDATORY: usize = 4;
/// Patients admitted before their release day or after their due day.
pub const ADMISSION_WINDOW: usize = 5;
/// Persons above a room's capacity.
pub const ROOM_CAPACITY: usize = 6;
/// Rooms and shifts with a nurse who doesn't work the shift.
pub const NURSE_PRESENCE: usize = 7;
/// Occupied rooms and shifts without a nurse.
pub const UNCOVERED_ROOM: usize = 8;

// In `Bill::s` and `Weights::w`, the costs.

/// Oldest minus youngest age group, by room and day.
pub const MIXED_AGE: usize = 0;
/// Required skill above the nurse's.
pub const NURSE_SKILL: usize = 1;
/// Different nurses each person sees.
pub const CONTINUITY_OF_CARE: usize = 2;
/// Workload above a nurse's maximum of a shift.
pub const EXCESS_WORKLOAD: usize = 3;
/// Theatres and days with surgery.
pub const OPEN_THEATRE: usize = 4;
/// A surgeon's distinct theatres of a day less one.
pub const SURGEON_TRANSFER: usize = 5;
/// Days between release and admission.
pub const PATIENT_DELAY: usize = 6;
/// Optional patients who aren't admitted.
pub const UNSCHEDULED_OPTIONAL: usize = 7;
