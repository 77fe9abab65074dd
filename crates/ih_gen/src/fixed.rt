//! What is alike in all generated instances.

ghost use Rattle.ih_gen.specs.Generated.{each_day, numbered, age_groups_data, shift_types_data, weights_data};
ghost use Rattle.ih_gen.specs.Members.{IsMade, fixed_data, minutes_data, named_data, sizes_data};

use crate::members::with_member;
use crate::names::{Made, age_name, id_value, shift_name};
use serde_json::{Value, json};
use std::alloc::Global;

// A list with so many minutes for each day.
#[tactic(auto, using(crate::proofs::RowLemmas::listed_steps), unfolding(crate::specs::Generated::each_day))]
fn each_day(alloc: Global, days: u32, minutes: u32) -> Made
    ensures { IsMade (each_day days minutes) result }
{
    let mut values = Vec::new(alloc);
    for _day in 0..days {
        values.push(Value::from(minutes))?;
    }
    Ok(Value::Array(values))
}

// A thing with an id alone.
fn named_value(alloc: Global, letter: &str, number: u32) -> Made
    ensures { IsMade (named_data letter.now number) result }
{
    let id = id_value(alloc, letter, number)?;
    json!(in alloc; {"id": id})
}

// The first `count` things of a letter, each with the same minutes on each day under a key.
#[tactic(auto, using(crate::proofs::RowLemmas::listed_steps), unfolding(crate::specs::Generated::numbered))]
fn with_minutes(alloc: Global, letter: &str, key: &str, minutes: u32, days: u32, count: u32) -> Made
    ensures { IsMade (numbered (minutes_data letter.now key.now minutes days) count) result }
{
    let mut values = Vec::new(alloc);
    for n in 0..count {
        let thing = named_value(alloc, letter, n)?;
        let each_day = each_day(alloc, days, minutes)?;
        values.push(with_member(alloc, thing, key, each_day)?)?;
    }
    Ok(Value::Array(values))
}

// The names of the age groups.
fn age_groups(alloc: Global) -> Made
    ensures { IsMade age_groups_data result }
{
    json!(in alloc; [age_name(0), age_name(1), age_name(2), age_name(3)])
}

// The names of the shift types.
fn shift_types(alloc: Global) -> Made
    ensures { IsMade shift_types_data result }
{
    json!(in alloc; [shift_name(0), shift_name(1), shift_name(2)])
}

// The weights of the costs.
fn weights(alloc: Global) -> Made
    ensures { IsMade weights_data result }
{
    json!(in alloc; {
        "continuity_of_care": 5u32,
        "nurse_eccessive_workload": 1u32,
        "open_operating_theater": 30u32,
        "patient_delay": 10u32,
        "room_mixed_age": 5u32,
        "room_nurse_skill": 10u32,
        "surgeon_transfer": 10u32,
        "unscheduled_optional": 300u32,
    })
}

// The number of days and of skill levels.
fn sizes(alloc: Global, days: u32) -> Made
    ensures { IsMade (sizes_data days) result }
{
    json!(in alloc; {"days": days, "skill_levels": 3u32})
}

/// Days, names, operating theatres, surgeons and weights.
pub fn fixed_value(alloc: Global, days: u32) -> Made
    ensures { IsMade (fixed_data days) result }
{
    // One part at a time, so that few values are held at once.
    let sized = sizes(alloc, days)?;
    let groups = age_groups(alloc)?;
    let grouped = with_member(alloc, sized, "age_groups", groups)?;
    let theatres = with_minutes(alloc, "t", "availability", 600, days, 5)?;
    let equipped = with_member(alloc, grouped, "operating_theaters", theatres)?;
    let types = shift_types(alloc)?;
    let timed = with_member(alloc, equipped, "shift_types", types)?;
    let surgeons = with_minutes(alloc, "s", "max_surgery_time", 480, days, 10)?;
    let staffed = with_member(alloc, timed, "surgeons", surgeons)?;
    let weights = weights(alloc)?;
    with_member(alloc, staffed, "weights", weights)
}
