//! Patients.

ghost use Rattle.std.specs.Prelude.{◌≡◌, ◌<◌, ◌≤◌, ◌^◌, None, map, length};
ghost use Rattle.serde_json.specs.View.{view};
ghost use Rattle.ih_tables.specs.Lookups.{finds};
ghost use Rattle.ih_format.specs.{Gives.Gives, Checks.each, Checks.under};
ghost use Rattle.ih_instance.specs.Instance.{patient, due_day, room_number, room_numbers};

use ih_format::reads::Reads;
use ih_format::{FormatError, Row, json_values, keys};
use ih_tables::{Key, List, Names, Patient, Place, Refusal, RoomNo, SurgeonNo};
use serde_json::Value;
use std::alloc::Global;

// The due day, which only a mandatory patient has.
fn due_day(object: &Value, mandatory: bool, at: Place) -> Result<Option<u32>, Refusal>
    ensures { result ≡ due_day mandatory at (view object.now) }
{
    if !mandatory {
        return Ok(None);
    }
    let day = keys::number(object, Key::SurgeryDueDay, 0, 1000, at)?;
    Ok(Some(day))
}

fn room_number(value: &Value, rooms: &Names, at: Place) -> Result<RoomNo, Refusal>
    ensures { result ≡ room_number (finds rooms.now) at (view value.now) }
{
    let n = json_values::reference(value, rooms, at)?;
    Ok(RoomNo(n))
}

#[tactic(auto, using(ih_format::proofs::Items::reading))]
fn each_number(
    alloc: Global,
    values: &[Value],
    rooms: &Names,
    at: Place,
) -> Result<List<RoomNo>, FormatError>
    requires { length values.now < 2 ^ 32 }
    ensures { Gives (λ xs. xs) result (each (λ _. room_number (finds rooms.now)) at (map view values.now)) }
{
    let mut read = Vec::new(alloc);
    let mut i = 0;
    for value in values {
        read.push(room_number(value, rooms, at.item(i))?)?;
        i += 1;
    }
    Ok(List::new(read))
}

fn room_numbers(
    alloc: Global,
    value: &Value,
    rooms: &Names,
    at: Place,
) -> Result<List<RoomNo>, FormatError>
    ensures { Gives (λ xs. xs) result (room_numbers (finds rooms.now) at (view value.now)) }
{
    let values = json_values::list_of(value, 0, 1024, at)?;
    each_number(alloc, values, rooms, at)
}

fn closed_rooms(
    alloc: Global,
    object: &Value,
    rooms: &Names,
    at: Place,
) -> Result<List<RoomNo>, FormatError>
    ensures { Gives (λ xs. xs) result
        (under at (view object.now) Key.IncompatibleRoomIds (room_numbers (finds rooms.now))) }
{
    let value = json_values::value_of(object, Key::IncompatibleRoomIds, at)?;
    room_numbers(alloc, value, rooms, at.key(Key::IncompatibleRoomIds))
}

/// The reader of patients.
#[derive(Drop)]
pub struct Patients<'a> {
    pub days: u32,
    pub groups: &'a Names,
    pub surgeons: &'a Names,
    pub rooms: &'a Names,
    pub ghost most: { days ≤ 56 },
}

impl<'a> Reads for Patients<'a> {
    type Item = Patient;

    ghost reading = { λ r. patient r.days (finds r.groups.now) (finds r.surgeons.now) (finds r.rooms.now) };

    #[tactic(auto, unfolding(crate::specs::Instance::patient))]
    fn read(&self, alloc: Global, row: Row) -> Result<Patient, FormatError> {
        let id = row.id(alloc)?;
        let mandatory = keys::truth(row.value, Key::Mandatory, row.at)?;
        let gender = keys::text(alloc, row.value, Key::Gender, row.at)?;
        let age_group = keys::reference(row.value, Key::AgeGroup, self.groups, row.at)?;
        let length_of_stay = keys::number(row.value, Key::LengthOfStay, 1, 100, row.at)?;
        let surgery_release_day = keys::number(row.value, Key::SurgeryReleaseDay, 0, 1000, row.at)?;
        let surgery_due_day = due_day(row.value, mandatory, row.at)?;
        let surgery_duration = keys::number(row.value, Key::SurgeryDuration, 0, 100_000, row.at)?;
        let surgeon = keys::reference(row.value, Key::SurgeonId, self.surgeons, row.at)?;
        let incompatible_room_ids = closed_rooms(alloc, row.value, self.rooms, row.at)?;
        let entries = 3 * length_of_stay.min(self.days) as usize;
        let workload_produced = row.vector(alloc, Key::WorkloadProduced, entries, 100_000)?;
        let skill_level_required = row.vector(alloc, Key::SkillLevelRequired, entries, 1000)?;
        Ok(Patient {
            id,
            mandatory,
            gender,
            age_group,
            length_of_stay,
            surgery_release_day,
            surgery_due_day,
            surgery_duration,
            surgeon_id: SurgeonNo(surgeon),
            incompatible_room_ids,
            workload_produced,
            skill_level_required,
        })
    }
}
