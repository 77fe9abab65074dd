//! An instance as plain data. The fields have the names of the keys of the competition's instance file;
//! what they must meet is said by `Draft::is_valid`.

use crate::bills::Weights;
use crate::ids::{Day, RoomNo, SurgeonNo};
use crate::lists::List;
use crate::names::Name;

/// All data of an instance, valid or not. Numbers of things follow the order of the lists, from 0.
#[derive(Drop)]
pub struct Draft {
    /// The days of the horizon, 1 to 56.
    pub days: u32,
    /// The number of skill levels, 1 to 1,000; skills aren't compared with it.
    pub skill_levels: u32,
    /// The three shift types of a day, in their order.
    pub shift_types: List<Name>,
    /// The age groups, from the youngest; at most 64.
    pub age_groups: List<Name>,
    /// The weights of the costs.
    pub weights: Weights,
    /// At most 128.
    pub surgeons: List<Surgeon>,
    /// At most 64.
    pub operating_theaters: List<Theatre>,
    /// 1 to 128.
    pub rooms: List<Room>,
    /// At most 512.
    pub nurses: List<Nurse>,
    /// At most 512.
    pub occupants: List<Occupant>,
    /// At most 2,048.
    pub patients: List<Patient>,
}

/// A surgeon, and the most minutes of surgery on each day.
#[derive(Drop)]
pub struct Surgeon {
    pub id: Name,
    pub max_surgery_time: List<u32>,
}

/// An operating theatre, and its available minutes on each day.
#[derive(Drop)]
pub struct Theatre {
    pub id: Name,
    pub availability: List<u32>,
}

/// A room, and how many persons may be in it on one day.
#[derive(Drop)]
pub struct Room {
    pub id: Name,
    pub capacity: u32,
}

/// A nurse, with a skill of 0 to 1,000 and the shifts that the nurse works.
#[derive(Drop)]
pub struct Nurse {
    pub id: Name,
    pub skill_level: u32,
    pub working_shifts: List<WorkedShift>,
}

/// A shift that a nurse works, and the workload above which it is overloaded.
#[derive(Clone, Copy, Debug, PartialEq, Eq)]
pub struct WorkedShift {
    pub day: Day,
    /// The number of the shift type, 0 to 2.
    pub shift: u32,
    pub max_load: u32,
}

/// Someone who is in a room from day 0 on, and isn't operated on.
#[derive(Drop)]
pub struct Occupant {
    pub id: Name,
    /// Any text; two genders differ where the texts differ.
    pub gender: Name,
    /// The number of the age group.
    pub age_group: u32,
    /// In days, 1 to 100; days past the horizon aren't counted.
    pub length_of_stay: u32,
    /// For each shift of the stay within the horizon, 0 to 100,000.
    pub workload_produced: List<u32>,
    /// For each shift of the stay within the horizon, 0 to 1,000.
    pub skill_level_required: List<u32>,
    pub room_id: RoomNo,
}

/// Someone to be admitted: a mandatory patient on a day of the window, an optional one not before the
/// release day, or not at all. The surgery is on the day of admission.
#[derive(Drop)]
pub struct Patient {
    pub id: Name,
    /// Whether the patient must be admitted.
    pub mandatory: bool,
    /// Any text; two genders differ where the texts differ.
    pub gender: Name,
    /// The number of the age group.
    pub age_group: u32,
    /// In days, 1 to 100; days past the horizon aren't counted.
    pub length_of_stay: u32,
    /// The first day of the window, 0 to 1,000.
    pub surgery_release_day: u32,
    /// The last day of the window, 0 to 1,000: of mandatory patients only.
    pub surgery_due_day: Option<u32>,
    /// In minutes, 0 to 100,000.
    pub surgery_duration: u32,
    pub surgeon_id: SurgeonNo,
    /// The rooms that the patient may not be in; repeats are allowed.
    pub incompatible_room_ids: List<RoomNo>,
    /// For each shift of the stay within the horizon, 0 to 100,000.
    pub workload_produced: List<u32>,
    /// For each shift of the stay within the horizon, 0 to 1,000.
    pub skill_level_required: List<u32>,
}
