//! The greatest number, the longest name and the longest list at each key of an instance file, and one more.

use crate::tests::instance::is_answered;
use crate::tests::rows::none_is_wrong;
use ih_fixtures::{TWO_PATIENTS, WARD, cut};
use std::alloc::{AllocError, Global};

// Numbers of the ward of one day, and then of that of two patients: what stands in the file, what has the greatest
// number in its place, what has one more, and how that is refused.
const NUMBERS: &str = r#"
"days":1 | "days":56 | "days":57 | Range at $.days
"skill_levels":3 | "skill_levels":1000 | "skill_levels":1001 | Range at $.skill_levels
"room_mixed_age":5 | "room_mixed_age":100000 | "room_mixed_age":100001 | Range at $.weights.room_mixed_age
"room_nurse_skill":10 | "room_nurse_skill":100000 | "room_nurse_skill":100001 | Range at $.weights.room_nurse_skill
"continuity_of_care":2 | "continuity_of_care":100000 | "continuity_of_care":100001 | Range at $.weights.continuity_of_care
"nurse_eccessive_workload":1 | "nurse_eccessive_workload":100000 | "nurse_eccessive_workload":100001 | Range at $.weights.nurse_eccessive_workload
"open_operating_theater":30 | "open_operating_theater":100000 | "open_operating_theater":100001 | Range at $.weights.open_operating_theater
"surgeon_transfer":7 | "surgeon_transfer":100000 | "surgeon_transfer":100001 | Range at $.weights.surgeon_transfer
"patient_delay":4 | "patient_delay":100000 | "patient_delay":100001 | Range at $.weights.patient_delay
"unscheduled_optional":100 | "unscheduled_optional":100000 | "unscheduled_optional":100001 | Range at $.weights.unscheduled_optional
"capacity":2 | "capacity":1000 | "capacity":1001 | Range at $.rooms[0].capacity
"skill_level":1 | "skill_level":1000 | "skill_level":1001 | Range at $.nurses[0].skill_level
"early","max_load":2 | "early","max_load":100000 | "early","max_load":100001 | Range at $.nurses[0].working_shifts[0].max_load
"length_of_stay":1 | "length_of_stay":100 | "length_of_stay":101 | Range at $.occupants[0].length_of_stay
[2,1,1] | [100000,1,1] | [100001,1,1] | Range at $.occupants[0].workload_produced[0]
[1,0,2] | [1000,0,2] | [1001,0,2] | Range at $.occupants[0].skill_level_required[0]
of two patients:
"length_of_stay":5 | "length_of_stay":100 | "length_of_stay":101 | Range at $.patients[0].length_of_stay
"surgery_release_day":0 | "surgery_release_day":1000 | "surgery_release_day":1001 | Range at $.patients[0].surgery_release_day
"surgery_due_day":1 | "surgery_due_day":1000 | "surgery_due_day":1001 | Range at $.patients[0].surgery_due_day
"surgery_duration":60 | "surgery_duration":100000 | "surgery_duration":100001 | Range at $.patients[0].surgery_duration
[100,100] | [100,100000] | [100,100001] | Range at $.surgeons[0].max_surgery_time[1]
[60,60] | [60,100000] | [60,100001] | Range at $.operating_theaters[0].availability[1]
"#;

// Lists of the ward of one day, and then of that of two patients: what stands in the file, how more items begin and end
// in its place, an item, how many more items there may be, and what is answered to so many and to one more. The items
// stand where there are three dots, and an item's number where there is a '#'. The rooms that are listed more have no
// name that is known, which is found once the list isn't too long.
const LISTS: &str = r#"
"age_groups":[ | "age_groups":[..., | "x#" | 61 | accepted | Length at $.age_groups
"surgeons":[] | "surgeons":[...] | {"id":"x#","max_surgery_time":[1]} | 128 | accepted | Length at $.surgeons
"operating_theaters":[] | "operating_theaters":[...] | {"id":"x#","availability":[1]} | 64 | accepted | Length at $.operating_theaters
"rooms":[ | "rooms":[..., | {"id":"x#","capacity":1} | 127 | accepted | Length at $.rooms
"nurses":[ | "nurses":[..., | {"id":"x#","skill_level":0,"working_shifts":[]} | 511 | accepted | Length at $.nurses
"occupants":[ | "occupants":[..., | {"id":"x#","gender":"A","age_group":"old","length_of_stay":1,"workload_produced":[0,0,0],"skill_level_required":[0,0,0],"room_id":"r0"} | 511 | accepted | Length at $.occupants
of two patients:
"patients":[ | "patients":[..., | {"id":"x#","mandatory":false,"gender":"B","age_group":"child","length_of_stay":1,"surgery_release_day":0,"surgery_duration":40,"surgeon_id":"s0","incompatible_room_ids":[],"workload_produced":[1,1,1],"skill_level_required":[2,2,2]} | 2046 | accepted | Length at $.patients
"incompatible_room_ids":[ | "incompatible_room_ids":[..., | "x#" | 1023 | Unknown at $.patients[0].incompatible_room_ids[0] | Length at $.patients[0].incompatible_room_ids
"#;

// Adds an item with its number.
fn add_item(
    alloc: Global,
    text: &mut String,
    item: (&str, &str),
    number: u32,
) -> Result<(), AllocError> {
    let digits = format!(in alloc; "{number}")?;
    text.push_str(item.0)?;
    text.push_str(digits.as_str())?;
    text.push_str(item.1)
}

// So many more items of a list, between its ends.
fn listed(
    alloc: Global,
    ends: (&str, &str),
    item: (&str, &str),
    count: u32,
) -> Result<String, AllocError> {
    let mut text = String::from_str(alloc, ends.0)?;
    for number in 0..count {
        if number > 0 {
            text.push_str(",")?;
        }
        add_item(alloc, &mut text, item, number)?;
    }
    text.push_str(ends.1)?;
    Ok(text)
}

// Whether that is answered where a list has so many more items.
fn is_answered_with(
    alloc: Global,
    file: &str,
    old: &str,
    ends: &str,
    item: &str,
    count: u32,
    wanted: &str,
) -> bool {
    match listed(alloc, cut(ends, "..."), cut(item, "#"), count) {
        Ok(items) => is_answered(alloc, file, old, items.as_str(), wanted),
        Err(_) => false,
    }
}

// Whether the answers to so many more items, and to one more, are these.
fn are_limited(
    alloc: Global,
    file: &str,
    old: &str,
    ends: &str,
    item: &str,
    answers: &str,
) -> bool {
    let (more, answers) = cut(answers, " | ");
    let (within, beyond) = cut(answers, " | ");
    match more.parse::<u32>() {
        Ok(more) => {
            is_answered_with(alloc, file, old, ends, item, more, within)
                && is_answered_with(alloc, file, old, ends, item, more.saturating_add(1), beyond)
        }
        Err(_) => false,
    }
}

// Whether a row's greatest number or list is answered in a file as the row says, and so is one more.
fn is_limited(alloc: Global, file: &str, row: &str) -> bool {
    let (old, rest) = cut(row, " | ");
    let (most, rest) = cut(rest, " | ");
    let (more, answer) = cut(rest, " | ");
    if most.contains("...") {
        are_limited(alloc, file, old, most, more, answer)
    } else {
        is_answered(alloc, file, old, most, "accepted")
            && is_answered(alloc, file, old, more, answer)
    }
}

// The first row of a table that isn't so.
fn first_not_limited(alloc: Global, table: &str) -> &str {
    let mut file = WARD;
    for row in table.trim().split('\n') {
        if row == "of two patients:" {
            file = TWO_PATIENTS;
        } else if !is_limited(alloc, file, row) {
            return row;
        }
    }
    ""
}

#[test]
fn greatest_numbers(rt: HostRuntime) {
    none_is_wrong(&rt, first_not_limited(rt.alloc(), NUMBERS));
}

#[test]
fn longest_lists(rt: HostRuntime) {
    none_is_wrong(&rt, first_not_limited(rt.alloc(), LISTS));
}

// Whether that is answered where the occupant's name has so many letters.
fn is_answered_named(alloc: Global, letters: usize, wanted: &str) -> bool {
    match "x".repeat(alloc, letters) {
        Ok(name) => is_answered(alloc, WARD, "a0", name.as_str(), wanted),
        Err(_) => false,
    }
}

#[test]
fn longest_name(rt: HostRuntime) {
    assert!(rt; is_answered_named(rt.alloc(), 100, "accepted"));
    assert!(rt; is_answered_named(rt.alloc(), 101, "Range at $.occupants[0].id"));
}
