//! The rows of rooms.

ghost use Rattle.std.specs.Prelude.{◌≡◌, ◌<◌, ◌∷◌, ◌++◌, IfOk, OnOk, length, map, vec_len};
ghost use Rattle.csv.specs.Records.{fields_of};
ghost use Rattle.ih_tables.specs.Sizes.{room_count};
ghost use Rattle.ih_plan.specs.Presence.{present};
ghost use Rattle.ih_sheet.specs.Rows.{person_id, room_heading, room_row, room_rows, rows_of_room};

use crate::names::{listed_names, person_id};
use crate::shown::Shown;
use csv::StringRecord;
use ih_plan::is_present;
use ih_tables::RoomNo;
use std::alloc::{AllocError, Global};

fn heading(alloc: Global) -> Result<StringRecord, AllocError>
    ensures { IfOk result (λ row. fields_of row ≡ room_heading) }
{
    let names = ["room", "day", "date", "persons", "count", "capacity"];
    StringRecord::from_fields(alloc, names.as_slice())
}

// The ids of the persons in a room on a day, rising by number.
#[tactic(auto, using(crate::proofs::RowSteps::chosen_steps), unfolding(ih_plan::specs::Presence::present))]
fn persons_in<'a>(
    alloc: Global,
    shown: &Shown<'a>,
    room: RoomNo,
    day: u32,
) -> Result<Vec<&'a str>, AllocError>
    ensures ids { IfOk result (λ ids. map (λ id. id.now) ids.items
        ≡ map (person_id shown.now.inst.now.draft) (present shown.now.inst.now.draft shown.now.plan.now room.0 day)) }
    ensures count { IfOk result
        (λ ids. vec_len ids ≡ length (present shown.now.inst.now.draft shown.now.plan.now room.0 day)) }
{
    let mut ids = Vec::new(alloc);
    for x in 0..shown.inst.persons() {
        if is_present(shown.inst, shown.plan, room, day, x) {
            ids.push(person_id(shown.inst, x))?;
        }
    }
    Ok(ids)
}

#[tactic(auto, unfolding(crate::specs::Rows::room_row))]
fn room_row(
    alloc: Global,
    shown: &Shown<'_>,
    room: RoomNo,
    day: u32,
) -> Result<StringRecord, AllocError>
    requires { room.0 < room_count shown.now.inst.now.draft }
    ensures { IfOk result (λ row. fields_of row
        ≡ room_row shown.now.inst.now.draft shown.now.dates.now shown.now.plan.now room.0 day) }
{
    let room_data = shown.inst.room(room);
    let ids = persons_in(alloc, shown, room, day)?;
    let day_text = day.to_string(alloc)?;
    let date = shown.date(alloc, day)?;
    let persons = listed_names(alloc, ids.as_slice())?;
    let count = ids.len().to_string(alloc)?;
    let capacity = room_data.capacity.to_string(alloc)?;
    let fields = [
        room_data.id.as_str(),
        day_text.as_str(),
        date.as_str(),
        persons.as_str(),
        count.as_str(),
        capacity.as_str(),
    ];
    StringRecord::from_fields(alloc, fields.as_slice())
}

// Appends the rows of a room, by day.
#[tactic(auto, using(crate::proofs::RowSteps::row_steps))]
fn put_room(
    alloc: Global,
    shown: &Shown<'_>,
    room: RoomNo,
    rows: &mut Vec<StringRecord>,
) -> Result<(), AllocError>
    requires { room.0 < room_count shown.now.inst.now.draft }
    ensures { OnOk result (map fields_of rows.new.items ≡ map fields_of rows.old.items
        ++ rows_of_room shown.now.inst.now.draft shown.now.dates.now shown.now.plan.now room.0) }
{
    for d in 0..shown.inst.days() {
        rows.push(room_row(alloc, shown, room, d)?)?;
    }
    Ok(())
}

/// The heading, and the rows of each room, in number order.
#[tactic(auto, using(crate::proofs::RowSteps::row_steps))]
pub fn room_rows(alloc: Global, shown: &Shown<'_>) -> Result<Vec<StringRecord>, AllocError>
    ensures { IfOk result (λ rows. map fields_of rows.items
        ≡ room_heading ∷ room_rows shown.now.inst.now.draft shown.now.dates.now shown.now.plan.now) }
{
    let mut rows = Vec::new(alloc);
    rows.push(heading(alloc)?)?;
    for r in 0..shown.inst.rooms() {
        put_room(alloc, shown, RoomNo(r), &mut rows)?;
    }
    Ok(rows)
}
