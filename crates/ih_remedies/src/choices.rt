//! What a reference may name.

ghost use Rattle.std.specs.Prelude.{◌≡◌, ◌++◌, flat_map, map, take, IfOk, OnOk, option_map, string_bytes};
ghost use Rattle.serde_json.specs.View.{view};
ghost use Rattle.ih_remedies.specs.Sentences.{choices_text, group_name, group_text, items_in, items_of, label};
ghost use Rattle.ih_remedies.specs.Sentences.{list_of, more_text, next_label, shifts_of};

use crate::values::{Text, shown};
use ih_tables::{Key, Step};
use serde_json::Value;
use std::alloc::{AllocError, Global};

// The items of a list; of any other value none.
#[tactic(auto, using(ih_format::proofs::Listing::list_items_view))]
fn items_of(value: &Value) -> &[Value]
    ensures { map view result.now ≡ items_of (view value.now) }
{
    match value.as_array() {
        None => &[],
        Some(items) => items.as_slice(),
    }
}

/// The items of a list, if there is one.
pub fn items_in(value: Option<&Value>) -> &[Value]
    ensures { map view result.now ≡ items_in (option_map (λ v. view v.now) value.entry) }
{
    match value {
        None => &[],
        Some(value) => items_of(value),
    }
}

// A thing that can be named: by its id, or a name itself.
fn label(alloc: Global, item: &Value) -> Text
    ensures { IfOk result (λ s. string_bytes s ≡ label (view item.now)) }
{
    match item.get(Key::Id.name()) {
        None => shown(alloc, item),
        Some(id) => shown(alloc, id),
    }
}

// Appends the names of these, each behind a comma.
#[tactic(auto, using(crate::proofs::Labels::label_steps), unfolding(crate::specs::Sentences::next_label))]
fn put_labels(alloc: Global, out: &mut String, items: &[Value]) -> Result<(), AllocError>
    ensures { OnOk result
        (string_bytes out.new ≡ string_bytes out.old ++ flat_map next_label (map view items.now)) }
{
    for item in items {
        let name = label(alloc, item)?;
        out.push_str(", ")?;
        out.push_str(name.as_str())?;
    }
    Ok(())
}

// The first five of these.
#[tactic(auto, using(crate::proofs::Labels::few_steps))]
fn few(items: &[Value]) -> &[Value]
    ensures { map view result.now ≡ take 5 (map view items.now) }
{
    if items.len() <= 5 {
        return items;
    }
    &items[..5]
}

#[tactic(auto, using(crate::proofs::Labels::few_steps))]
fn more_text(items: &[Value]) -> &'static str
    ensures { result.now ≡ more_text (map view items.now) }
{
    if 5 < items.len() { ", ..." } else { "" }
}

// The first six that there are.
#[tactic(auto, using(crate::proofs::Labels::label_steps), unfolding(crate::specs::Sentences::choices_text))]
fn choices_text(alloc: Global, items: &[Value]) -> Text
    ensures { IfOk result (λ s. string_bytes s ≡ choices_text (map view items.now)) }
{
    match items.split_first() {
        None => String::from_str(alloc, ": there are none"),
        Some((first, rest)) => {
            let name = label(alloc, first)?;
            let mut out = format!(in alloc; ": there are {name}")?;
            put_labels(alloc, &mut out, few(rest))?;
            out.push_str(more_text(rest))?;
            Ok(out)
        }
    }
}

/// What the value of a key is the id of, in which section.
pub fn group_name(key: Option<Key>, section: Option<Key>) -> &'static str
    ensures { result.now ≡ group_name key section }
{
    match key {
        Some(Key::RoomId | Key::IncompatibleRoomIds | Key::Room | Key::Rooms) => "rooms",
        Some(Key::SurgeonId) => "surgeons",
        Some(Key::AgeGroup) => "age groups",
        Some(Key::Shift) => "shift types",
        Some(Key::OperatingTheater) => "operating theaters",
        Some(Key::Id) => match section {
            Some(Key::Nurses) => "nurses",
            _ => "patients",
        },
        _ => "names",
    }
}

// The list of the same file that has the shift types.
fn shifts_of(first: Option<Step>) -> Option<Key>
    ensures { result ≡ shifts_of first }
{
    match first {
        None => None,
        Some(step) => match step.key {
            Key::WorkingShifts => Some(Key::ShiftTypes),
            _ => None,
        },
    }
}

/// The list of the same file that has what a key refers to. A solution's references are to the instance.
pub fn list_of(key: Option<Key>, first: Option<Step>) -> Option<Key>
    ensures { result ≡ list_of key first }
{
    match key {
        Some(Key::RoomId | Key::IncompatibleRoomIds) => Some(Key::Rooms),
        Some(Key::SurgeonId) => Some(Key::Surgeons),
        Some(Key::AgeGroup) => Some(Key::AgeGroups),
        Some(Key::Shift) => shifts_of(first),
        _ => None,
    }
}

/// What there is to choose from.
#[tactic(auto, unfolding(crate::specs::Sentences::group_text))]
pub fn group_text(alloc: Global, list: Option<Key>, name: &str, file: &Value) -> Text
    ensures { IfOk result (λ s. string_bytes s ≡ group_text list name.now (view file.now)) }
{
    match list {
        None => format!(in alloc; "the ward's {name}"),
        Some(key) => {
            let choices = choices_text(alloc, items_in(file.get(key.name())))?;
            format!(in alloc; "this file's {name}{choices}")
        }
    }
}
