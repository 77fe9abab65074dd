//! Whom or what a place in a refused file is about.

ghost use Rattle.std.specs.Prelude.{◌≡◌, IfOk, option_map, string_bytes};
ghost use Rattle.serde_json.specs.View.{view};
ghost use Rattle.ih_remedies.specs.Owners.{id_of, item_name, item_text, key_at, key_text, kind_name, number_text};
ghost use Rattle.ih_remedies.specs.Owners.{owner, owner_of, part_of, section_owner, thing};

use crate::values::{Text, shown};
use ih_tables::{Key, Place, Step};
use serde_json::Value;
use std::alloc::Global;

/// The key of the value at a place, or of the list that it is an item of.
pub fn key_at(at: Place) -> Option<Key>
    ensures { result ≡ key_at at }
{
    match at.second {
        Some(step) => Some(step.key),
        None => match at.first {
            Some(step) => Some(step.key),
            None => at.section,
        },
    }
}

/// A key between quotes.
#[tactic(auto, unfolding(crate::specs::Owners::key_text))]
pub fn key_text(alloc: Global, key: Option<Key>) -> Text
    ensures { IfOk result (λ s. string_bytes s ≡ key_text key) }
{
    match key {
        None => format!(in alloc; "the whole"),
        Some(key) => format!(in alloc; "\"{key}\""),
    }
}

// An item of a list, counted from 1.
#[tactic(auto, unfolding(crate::specs::Owners::number_text))]
fn number_text(alloc: Global, index: u32) -> Text
    ensures { IfOk result (λ s. string_bytes s ≡ number_text index) }
{
    let number = index as u64 + 1;
    format!(in alloc; "number {number}")
}

#[tactic(auto, unfolding(crate::specs::Owners::item_text))]
fn item_text(alloc: Global, index: u32, key: Option<Key>) -> Text
    ensures { IfOk result (λ s. string_bytes s ≡ item_text index key) }
{
    let number = number_text(alloc, index)?;
    let list = key_text(alloc, key)?;
    format!(in alloc; "{number} of {list}")
}

/// The value at a place, by its key.
pub fn thing(alloc: Global, at: Place) -> Text
    ensures { IfOk result (λ s. string_bytes s ≡ thing at) }
{
    match at.last {
        None => key_text(alloc, key_at(at)),
        Some(index) => item_text(alloc, index, key_at(at)),
    }
}

// What an item of a section is called.
fn kind_name(section: Key) -> &'static str
    ensures { result.now ≡ kind_name section }
{
    match section {
        Key::Surgeons => "surgeon",
        Key::OperatingTheaters => "operating theater",
        Key::Rooms => "room",
        Key::Nurses => "nurse",
        Key::Occupants => "occupant",
        Key::Patients => "patient",
        _ => "item",
    }
}

// The id of an item, where it is a text.
fn id_of(item: &Value) -> Option<&Value>
    ensures { option_map (λ v. view v.now) result ≡ id_of (view item.now) }
{
    let id = item.get(Key::Id.name())?;
    if id.is_string() { Some(id) } else { None }
}

// An item, by its id, or by its number where it has none.
#[tactic(auto, unfolding(crate::specs::Owners::item_name))]
fn item_name(alloc: Global, index: u32, item: Option<&Value>) -> Text
    ensures { IfOk result (λ s. string_bytes s
        ≡ item_name index (option_map (λ v. view v.now) item.entry)) }
{
    match item.and_then(id_of) {
        None => number_text(alloc, index),
        Some(id) => shown(alloc, id),
    }
}

// The section's item of this number, or the section where there is no number.
#[tactic(auto, unfolding(crate::specs::Owners::section_owner))]
fn section_owner(alloc: Global, section: Key, index: Option<u32>, file: &Value) -> Text
    ensures { IfOk result (λ s. string_bytes s ≡ section_owner section index (view file.now)) }
{
    match index {
        None => key_text(alloc, Some(section)),
        Some(i) => {
            let items = file.get(section.name());
            let item = match items {
                None => None,
                Some(items) => items.get(i as usize),
            };
            let name = item_name(alloc, i, item)?;
            let kind = kind_name(section);
            format!(in alloc; "{kind} {name}")
        }
    }
}

fn owner_of(alloc: Global, section: Option<Key>, first: Option<Step>, file: &Value) -> Text
    ensures { IfOk result (λ s. string_bytes s ≡ owner_of section first (view file.now)) }
{
    match section {
        None => String::from_str(alloc, "the file"),
        Some(key) => match first {
            None => String::from_str(alloc, "the file"),
            Some(step) => section_owner(alloc, key, step.at, file),
        },
    }
}

// Which item of a list of the owner.
fn part_of(alloc: Global, first: Option<Step>, second: Option<Step>) -> Text
    ensures { IfOk result (λ s. string_bytes s ≡ part_of first second) }
{
    let Some(list) = first else {
        return Ok(String::new(alloc));
    };
    let Some(step) = second else {
        return Ok(String::new(alloc));
    };
    match step.at {
        None => Ok(String::new(alloc)),
        Some(index) => {
            let row = item_text(alloc, index, Some(list.key))?;
            format!(in alloc; ", {row}")
        }
    }
}

/// Whom or what a place is about: `patient "P03"`, or `nurse "N1", number 2 of "working_shifts"`.
#[tactic(auto, unfolding(crate::specs::Owners::owner))]
pub fn owner(alloc: Global, at: Place, file: &Value) -> Text
    ensures { IfOk result (λ s. string_bytes s ≡ owner at (view file.now)) }
{
    let name = owner_of(alloc, at.section, at.first, file)?;
    let part = part_of(alloc, at.first, at.second)?;
    format!(in alloc; "{name}{part}")
}
