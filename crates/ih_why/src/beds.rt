//! The occupants who are in a room on a day.

ghost use Rattle.std.specs.Prelude.{◌≡◌, ◌<◌};
ghost use Rattle.ih_tables.specs.Sizes.{shift_count};
ghost use Rattle.ih_plan.specs.Costs.{capacity_of};
ghost use Rattle.ih_why.specs.Beds.{has_bed, has_other, is_crowded, is_deserted, is_mixed, is_occupied, lies_in};
ghost use Rattle.ih_why.specs.Beds.{occupants_in};

use ih_tables::{Day, Instance, Occupant, RoomNo, Shift};

// Whether the occupant is in the room on the day.
fn lies_in(occupant: &Occupant, room: RoomNo, day: Day) -> bool
    ensures { result ≡ lies_in room.0 day.0 occupant.now }
{
    occupant.room_id.0 == room.0 && day.0 < occupant.length_of_stay
}

// Whether the room has an occupant on the day.
fn is_occupied(inst: &Instance, room: RoomNo, day: Day) -> bool
    ensures { result ≡ is_occupied inst.now.draft room.0 day.0 }
{
    inst.draft
        .occupants
        .as_slice()
        .iter()
        .any(|o| lies_in(o, room, day))
}

/// How many occupants the room has on the day.
pub fn occupants_in(inst: &Instance, room: RoomNo, day: Day) -> u32
    ensures { result ≡ occupants_in inst.now.draft room.0 day.0 }
{
    inst.draft
        .occupants
        .as_slice()
        .iter()
        .filter(|o| lies_in(o, room, day))
        .count() as u32
}

/// How many persons the room is for.
pub fn capacity_of(inst: &Instance, room: RoomNo) -> u32
    ensures { result ≡ capacity_of inst.now.draft room.0 }
{
    match inst.draft.rooms.as_slice().get(room.0 as usize) {
        Some(a) => a.capacity,
        None => 0,
    }
}

// Whether one of the room's occupants on the day has another gender than this.
fn has_other(inst: &Instance, room: RoomNo, day: Day, gender: &str) -> bool
    ensures { result ≡ has_other inst.now.draft room.0 day.0 gender.now }
{
    inst.draft
        .occupants
        .as_slice()
        .iter()
        .any(|o| lies_in(o, room, day) && gender != o.gender.as_str())
}

/// Whether the room has a bed on the day for someone of this gender.
pub fn has_bed(inst: &Instance, room: RoomNo, gender: &str, day: Day) -> bool
    ensures { result ≡ has_bed inst.now.draft room.0 gender.now day.0 }
{
    occupants_in(inst, room, day) < capacity_of(inst, room) && !has_other(inst, room, day, gender)
}

/// Whether the room has more occupants on the day than it is for.
pub fn is_crowded(inst: &Instance, room: RoomNo, day: Day) -> bool
    ensures { result ≡ is_crowded inst.now.draft room.0 day.0 }
{
    capacity_of(inst, room) < occupants_in(inst, room, day)
}

/// Whether the room has occupants of two genders on the day.
pub fn is_mixed(inst: &Instance, room: RoomNo, day: Day) -> bool
    ensures { result ≡ is_mixed inst.now.draft room.0 day.0 }
{
    inst.draft.occupants.as_slice().iter().any(|o| lies_in(o, room, day)
        && has_other(inst, room, day, o.gender.as_str()))
}

/// Whether the room has an occupant in the shift, and no nurse works then.
pub fn is_deserted(inst: &Instance, room: RoomNo, shift: Shift) -> bool
    requires { shift.0 < shift_count inst.now.draft }
    ensures { result ≡ is_deserted inst.now.draft room.0 shift.0 }
{
    inst.working(shift).is_empty() && is_occupied(inst, room, Day(shift.0 / 3))
}
