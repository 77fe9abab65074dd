//! The rows of nurses.

ghost use Rattle.std.specs.Prelude.{◌≡◌, ◌≤◌, ◌<◌, ◌==◌, ◌∷◌, ◌++◌, IfOk, OnOk, [], decimal, map, string_bytes, sum_by, vec_len};
ghost use Rattle.std.specs.Option.{option_map_or};
ghost use Rattle.csv.specs.Records.{fields_of};
ghost use Rattle.ih_tables.specs.Sizes.{nurse_count, room_count, shift_count};
ghost use Rattle.ih_plan.specs.Costs.{is_empty, is_number, load_of};
ghost use Rattle.ih_plan.specs.Presence.{day_of, present, workload_of};
ghost use Rattle.ih_plan.specs.Timetable.{care_of};
ghost use Rattle.ih_solution.specs.Solution.{room_id, rooms_of};
ghost use Rattle.ih_sheet.specs.Rows.{nurse_heading, nurse_row, nurse_rows, rows_of_nurse};

use crate::names::{listed_names, nurse_id, room_id, shift_type};
use crate::shown::Shown;
use csv::StringRecord;
use ih_plan::{is_present, workload_of};
use ih_tables::{NurseNo, RoomNo, Shift};
use std::alloc::{AllocError, Global};

fn heading(alloc: Global) -> Result<StringRecord, AllocError>
    ensures { IfOk result (λ row. fields_of row ≡ nurse_heading) }
{
    let names = ["nurse", "day", "date", "shift", "rooms", "load", "max_load"];
    StringRecord::from_fields(alloc, names.as_slice())
}

// Whether the nurse has the room in the shift.
#[tactic(auto, using(ih_solution::proofs::ListedValues::place_steps))]
fn has_room(shown: &Shown<'_>, nurse: NurseNo, room: RoomNo, shift: Shift) -> bool
    requires room { room.0 < room_count shown.now.inst.now.draft }
    requires shift { shift.0 < shift_count shown.now.inst.now.draft }
    ensures { result ≡ is_number (care_of shown.now.plan.now room.0 shift.0) nurse.0 }
{
    match shown.plan.care(room, shift) {
        None => false,
        Some(other) => other.0 == nurse.0,
    }
}

// The ids of a nurse's rooms in a shift, rising by number.
#[tactic(auto, using(crate::proofs::RowSteps::chosen_steps), unfolding(ih_solution::specs::Solution::rooms_of))]
fn rooms_of<'a>(
    alloc: Global,
    shown: &Shown<'a>,
    nurse: NurseNo,
    shift: Shift,
) -> Result<Vec<&'a str>, AllocError>
    requires { shift.0 < shift_count shown.now.inst.now.draft }
    ensures ids { IfOk result (λ ids. map (λ id. id.now) ids.items
        ≡ map (room_id shown.now.inst.now.draft) (rooms_of shown.now.inst.now.draft shown.now.plan.now nurse.0 shift.0)) }
    ensures none { IfOk result (λ ids. (vec_len ids == 0)
        ≡ is_empty (rooms_of shown.now.inst.now.draft shown.now.plan.now nurse.0 shift.0)) }
{
    let mut ids = Vec::new(alloc);
    for r in 0..shown.inst.rooms() {
        let room = RoomNo(r);
        if has_room(shown, nurse, room, shift) {
            ids.push(room_id(shown.inst, room))?;
        }
    }
    Ok(ids)
}

// The workload of the persons in a room in a shift.
#[tactic(auto, using(ih_plan::proofs::SumLemmas::sum_steps), unfolding(ih_plan::specs::Presence::present))]
fn work_in(shown: &Shown<'_>, room: RoomNo, shift: Shift) -> u64
    ensures value { result ≡ sum_by (workload_of shown.now.inst.now.draft shown.now.plan.now shift.0)
        (present shown.now.inst.now.draft shown.now.plan.now room.0 (day_of shift.0)) }
    ensures bound { result ≤ 256000000 }
{
    let mut work = 0;
    for x in 0..shown.inst.persons() {
        if is_present(shown.inst, shown.plan, room, shift.0 / 3, x) {
            work += workload_of(shown.inst, shown.plan, x, shift.0) as u64;
        }
    }
    work
}

// A nurse's load in a shift.
#[tactic(auto, using(ih_plan::proofs::SumLemmas::sum_steps), unfolding(ih_plan::specs::Costs::load_of))]
fn load_of(shown: &Shown<'_>, nurse: NurseNo, shift: Shift) -> u64
    requires { shift.0 < shift_count shown.now.inst.now.draft }
    ensures { result ≡ load_of shown.now.inst.now.draft shown.now.plan.now nurse.0 shift.0 }
{
    let mut load = 0;
    for r in 0..shown.inst.rooms() {
        if has_room(shown, nurse, RoomNo(r), shift) {
            load += work_in(shown, RoomNo(r), shift);
        }
    }
    load
}

// A number, or no text where there is none.
fn number_text(alloc: Global, number: Option<u32>) -> Result<String, AllocError>
    ensures { IfOk result (λ text. string_bytes text ≡ option_map_or decimal number []) }
{
    match number {
        None => Ok(String::new(alloc)),
        Some(number) => number.to_string(alloc),
    }
}

// The row of a nurse and a shift, with the ids of the rooms.
#[tactic(auto, unfolding(crate::specs::Rows::nurse_row))]
fn nurse_row(
    alloc: Global,
    shown: &Shown<'_>,
    nurse: NurseNo,
    shift: Shift,
    rooms: &[&str],
) -> Result<StringRecord, AllocError>
    requires nurse { nurse.0 < nurse_count shown.now.inst.now.draft }
    requires shift { shift.0 < shift_count shown.now.inst.now.draft }
    requires rooms { map (λ id. id.now) rooms.now
        ≡ map (room_id shown.now.inst.now.draft) (rooms_of shown.now.inst.now.draft shown.now.plan.now nurse.0 shift.0) }
    ensures { IfOk result (λ row. fields_of row
        ≡ nurse_row shown.now.inst.now.draft shown.now.dates.now shown.now.plan.now nurse.0 shift.0) }
{
    let inst = shown.inst;
    let day = (shift.0 / 3).to_string(alloc)?;
    let date = shown.date(alloc, shift.0 / 3)?;
    let rooms = listed_names(alloc, rooms)?;
    let load = load_of(shown, nurse, shift).to_string(alloc)?;
    let most = number_text(alloc, inst.works(nurse, shift))?;
    let fields = [
        nurse_id(inst, nurse),
        day.as_str(),
        date.as_str(),
        shift_type(inst, shift),
        rooms.as_str(),
        load.as_str(),
        most.as_str(),
    ];
    StringRecord::from_fields(alloc, fields.as_slice())
}

// Appends a nurse's rows, by shift: of those that the nurse works, and of those with a room all the same.
#[tactic(auto, using(crate::proofs::RowSteps::row_steps))]
fn put_nurse(
    alloc: Global,
    shown: &Shown<'_>,
    nurse: NurseNo,
    rows: &mut Vec<StringRecord>,
) -> Result<(), AllocError>
    requires { nurse.0 < nurse_count shown.now.inst.now.draft }
    ensures { OnOk result (map fields_of rows.new.items ≡ map fields_of rows.old.items
        ++ rows_of_nurse shown.now.inst.now.draft shown.now.dates.now shown.now.plan.now nurse.0) }
{
    for k in 0..shown.inst.shifts() {
        let shift = Shift(k);
        let rooms = rooms_of(alloc, shown, nurse, shift)?;
        if shown.inst.works(nurse, shift).is_some() || !rooms.is_empty() {
            rows.push(nurse_row(alloc, shown, nurse, shift, rooms.as_slice())?)?;
        }
    }
    Ok(())
}

/// The heading, and the rows of each nurse, in number order.
#[tactic(auto, using(crate::proofs::RowSteps::row_steps))]
pub fn nurse_rows(alloc: Global, shown: &Shown<'_>) -> Result<Vec<StringRecord>, AllocError>
    ensures { IfOk result (λ rows. map fields_of rows.items
        ≡ nurse_heading ∷ nurse_rows shown.now.inst.now.draft shown.now.dates.now shown.now.plan.now) }
{
    let mut rows = Vec::new(alloc);
    rows.push(heading(alloc)?)?;
    for n in 0..shown.inst.nurses() {
        put_nurse(alloc, shown, NurseNo(n), &mut rows)?;
    }
    Ok(rows)
}
