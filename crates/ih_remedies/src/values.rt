//! The values of a refused file: where they stand, and how a person is shown them.

ghost use Rattle.std.specs.Prelude.{◌≡◌, IfOk, option_map, string_bytes};
ghost use Rattle.serde_json.specs.View.{view};
ghost use Rattle.ih_remedies.specs.Values.{found, item_at, shown, under_section, under_step, value_text};

use ih_tables::{Key, Place, Step};
use serde_json::Value;
use std::alloc::{AllocError, Global};
use std::fmt::InlineText;

/// What making a text gives: it fails only where memory runs out.
pub type Text = Result<String, AllocError>;

// The value itself, or the item of it where a number is given.
fn item_at(at: Option<u32>, value: &Value) -> Option<&Value>
    ensures { option_map (λ v. view v.now) result ≡ item_at at (view value.now) }
{
    match at {
        None => Some(value),
        Some(i) => value.get(i as usize),
    }
}

fn under_section(section: Option<Key>, value: &Value) -> Option<&Value>
    ensures { option_map (λ v. view v.now) result ≡ under_section section (view value.now) }
{
    match section {
        None => Some(value),
        Some(key) => value.get(key.name()),
    }
}

fn under_step(step: Option<Step>, value: &Value) -> Option<&Value>
    ensures { option_map (λ v. view v.now) result ≡ under_step step (view value.now) }
{
    match step {
        None => Some(value),
        Some(step) => item_at(step.at, value)?.get(step.key.name()),
    }
}

/// The value at a place.
#[tactic(auto, unfolding(crate::specs::Values::found))]
pub fn found(at: Place, file: &Value) -> Option<&Value>
    ensures { option_map (λ v. view v.now) result ≡ found at (view file.now) }
{
    let section = under_section(at.section, file)?;
    let first = under_step(at.first, section)?;
    let second = under_step(at.second, first)?;
    item_at(at.last, second)
}

/// A value, as it is shown: no list and no object, and 60 bytes at most.
#[tactic(auto, using(crate::proofs::Floats::has_no_float), unfolding(crate::specs::Values::shown))]
pub fn shown(alloc: Global, value: &Value) -> Text
    ensures { IfOk result (λ s. string_bytes s ≡ shown (view value.now)) }
{
    if value.is_array() {
        return String::from_str(alloc, "a list");
    }
    if value.is_object() {
        return String::from_str(alloc, "an object");
    }
    if value.is_f64() {
        return String::from_str(alloc, "a number with a point or an exponent, or too large");
    }
    let text = value.to_string(alloc)?;
    let cut = InlineText::<60>::new().and_str(text.as_str(), 60);
    String::from_str(alloc, cut.as_str())
}

/// A value, if there is one.
pub fn value_text(alloc: Global, value: Option<&Value>) -> Text
    ensures { IfOk result (λ s. string_bytes s ≡ value_text (option_map (λ v. view v.now) value.entry)) }
{
    match value {
        None => String::from_str(alloc, "nothing"),
        Some(value) => shown(alloc, value),
    }
}
