//! What is said of a file that is JSON, by its fault.

ghost use Rattle.std.specs.Prelude.{◌≡◌, IfOk, string_bytes};
ghost use Rattle.serde_json.specs.View.{view};
ghost use Rattle.ih_remedies.specs.Sentences.{duplicate_text, items_text, length_text, missing_text, same_shift_text};
ghost use Rattle.ih_remedies.specs.Sentences.{sentence, twice_text, two_nurses_text, two_weights_text, unknown_text, wanted_text};

use crate::choices::{group_name, group_text, items_in, list_of};
use crate::forms::{count_text, form_at, form_text};
use crate::owners::{key_at, key_text, owner, thing};
use crate::values::{Text, found, value_text};
use ih_tables::{Fault, Key, Place};
use serde_json::Value;
use std::alloc::Global;

#[tactic(auto, unfolding(crate::specs::Sentences::missing_text))]
fn missing_text(alloc: Global, whose: &str, key: &str, form: &str) -> Text
    ensures { IfOk result (λ s. string_bytes s ≡ missing_text whose.now key.now form.now) }
{
    format!(in alloc; "{whose} has no {key}, which is to be {form}")
}

#[tactic(auto, unfolding(crate::specs::Sentences::wanted_text))]
fn wanted_text(alloc: Global, whose: &str, what: &str, value: &str, form: &str) -> Text
    ensures { IfOk result (λ s. string_bytes s ≡ wanted_text whose.now what.now value.now form.now) }
{
    format!(in alloc; "{whose}: {what} is {value}, and is to be {form}")
}

#[tactic(auto, unfolding(crate::specs::Sentences::items_text))]
fn items_text(alloc: Global, count: usize) -> Text
    ensures { IfOk result (λ s. string_bytes s ≡ items_text count) }
{
    if count == 1 {
        format!(in alloc; "1 item")
    } else {
        format!(in alloc; "{count} items")
    }
}

#[tactic(auto, unfolding(crate::specs::Sentences::length_text))]
fn length_text(alloc: Global, whose: &str, what: &str, count: usize, wanted: &str) -> Text
    ensures { IfOk result (λ s. string_bytes s ≡ length_text whose.now what.now count wanted.now) }
{
    let items = items_text(alloc, count)?;
    format!(in alloc; "{whose}: {what} has {items}, and is to have {wanted}")
}

#[tactic(auto, unfolding(crate::specs::Sentences::twice_text))]
fn twice_text(alloc: Global, whose: &str, what: &str, value: &str) -> Text
    ensures { IfOk result (λ s. string_bytes s ≡ twice_text whose.now what.now value.now) }
{
    format!(in alloc; "{whose}: an earlier one has the same {what}: {value}")
}

#[tactic(auto, unfolding(crate::specs::Sentences::same_shift_text))]
fn same_shift_text(alloc: Global, whose: &str, what: &str) -> Text
    ensures { IfOk result (λ s. string_bytes s ≡ same_shift_text whose.now what.now) }
{
    format!(in alloc; "{whose}: {what} is of the same day and shift as an earlier one")
}

// A worked shift has no name that could be shown.
fn duplicate_text(alloc: Global, key: Option<Key>, whose: &str, what: &str, value: &str) -> Text
    ensures { IfOk result (λ s. string_bytes s ≡ duplicate_text key whose.now what.now value.now) }
{
    match key {
        None => twice_text(alloc, whose, what, value),
        Some(key) => match key {
            Key::WorkingShifts => same_shift_text(alloc, whose, what),
            _ => twice_text(alloc, whose, what, value),
        },
    }
}

#[tactic(auto, unfolding(crate::specs::Sentences::unknown_text))]
fn unknown_text(alloc: Global, whose: &str, value: &str, group: &str) -> Text
    ensures { IfOk result (λ s. string_bytes s ≡ unknown_text whose.now value.now group.now) }
{
    format!(in alloc; "{whose}: {value} is none of {group}")
}

#[tactic(auto, unfolding(crate::specs::Sentences::two_weights_text))]
fn two_weights_text(alloc: Global) -> Text
    ensures { IfOk result (λ s. string_bytes s ≡ two_weights_text) }
{
    String::from_str(
        alloc,
        "the file has both \"nurse_eccessive_workload\" and \"nurse_excessive_workload\": keep one of them",
    )
}

#[tactic(auto, unfolding(crate::specs::Sentences::two_nurses_text))]
fn two_nurses_text(alloc: Global, whose: &str, value: &str) -> Text
    ensures { IfOk result (λ s. string_bytes s ≡ two_nurses_text whose.now value.now) }
{
    format!(in alloc; "{whose}: {value} has a nurse in this shift already")
}

/// What is said of a fault at a place.
#[tactic(auto, unfolding(crate::specs::Sentences::sentence))]
pub fn sentence(alloc: Global, fault: Fault, at: Place, file: &Value) -> Text
    ensures { IfOk result (λ s. string_bytes s ≡ sentence fault at (view file.now)) }
{
    let whose = owner(alloc, at, file)?;
    let whose = whose.as_str();
    let what = thing(alloc, at)?;
    let what = what.as_str();
    let value = value_text(alloc, found(at, file))?;
    let value = value.as_str();
    let key = key_at(at);
    match fault {
        Fault::NotJson => Ok(String::new(alloc)),
        Fault::Missing => {
            let name = key_text(alloc, key)?;
            let form = form_text(alloc, form_at(at))?;
            missing_text(alloc, whose, name.as_str(), form.as_str())
        }
        Fault::Kind | Fault::Range => {
            let form = form_text(alloc, form_at(at))?;
            wanted_text(alloc, whose, what, value, form.as_str())
        }
        Fault::Length => {
            let count = items_in(found(at, file)).len();
            length_text(alloc, whose, what, count, count_text(key))
        }
        Fault::Duplicate => duplicate_text(alloc, key, whose, what, value),
        Fault::Unknown => {
            let name = group_name(key, at.section);
            let group = group_text(alloc, list_of(key, at.first), name, file)?;
            unknown_text(alloc, whose, value, group.as_str())
        }
        Fault::TwoWeights => two_weights_text(alloc),
        Fault::TwoNurses => two_nurses_text(alloc, whose, value),
    }
}
