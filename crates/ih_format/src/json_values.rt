//! JSON values that are to be of one kind, read at their place in the file. A value of another kind is refused there as
//! `Kind`, one outside its limits as `Range`, a list of another length as `Length`. None of these takes memory.

ghost use Rattle.std.specs.Prelude.{◌≡◌, ◌≤◌, map, length, IfOk, None};
ghost use Rattle.serde_json.specs.{View.view, Find.get};
ghost use Rattle.ih_tables.specs.{Places.key_name, Places.at_key, Lookups.finds};
ghost use Rattle.ih_tables.specs.{declared.refusals.Fault.TheVariants.Missing};
ghost use Rattle.ih_format.specs.Gives.{seen};
ghost use Rattle.ih_format.specs.Checks.{number, text, truth, object, list, list_of, first_items, new_name, reference};
ghost use Rattle.ih_format.specs.Checks.{or_else};

use ih_tables::{Fault, Key, Names, Place, Refusal};
use serde_json::Value;

/// The refusal of a file: what is wrong, and at which place.
pub fn refusal(fault: Fault, at: Place) -> Refusal
    ensures { result ≡ record { fault = fault; at = at } }
{
    Refusal { fault, at }
}

/// A whole number from low to high.
pub fn number(value: &Value, low: u32, high: u32, at: Place) -> Result<u32, Refusal>
    ensures least { IfOk result (λ n. low ≤ n) }
    ensures most { IfOk result (λ n. n ≤ high) }
    ensures gives { result ≡ number low high at (view value.now) }
{
    let Some(n) = value.as_u64() else {
        return Err(refusal(Fault::Kind, at));
    };
    if n < low as u64 || n > high as u64 {
        return Err(refusal(Fault::Range, at));
    }
    Ok(n as u32)
}

/// A text of 1 to 100 bytes.
pub fn text(value: &Value, at: Place) -> Result<&str, Refusal>
    ensures { seen (λ s. s.now) result ≡ text at (view value.now) }
{
    let Some(text) = value.as_str() else {
        return Err(refusal(Fault::Kind, at));
    };
    if text.len() < 1 || text.len() > 100 {
        return Err(refusal(Fault::Range, at));
    }
    Ok(text)
}

/// A truth value.
pub fn truth(value: &Value, at: Place) -> Result<bool, Refusal>
    ensures { result ≡ truth at (view value.now) }
{
    match value.as_bool() {
        Some(b) => Ok(b),
        None => Err(refusal(Fault::Kind, at)),
    }
}

/// Any object.
pub fn object(value: &Value, at: Place) -> Result<&Value, Refusal>
    ensures { seen (λ v. view v.now) result ≡ object at (view value.now) }
{
    if value.is_object() {
        return Ok(value);
    }
    Err(refusal(Fault::Kind, at))
}

/// A list of any count.
#[tactic(auto, using(crate::proofs::Listing::list_items_view))]
pub fn list(value: &Value, at: Place) -> Result<&[Value], Refusal>
    ensures { seen (λ s. map view s.now) result ≡ list at (view value.now) }
{
    match value.as_array() {
        Some(values) => Ok(values.as_slice()),
        None => Err(refusal(Fault::Kind, at)),
    }
}

/// A list of low to high items.
pub fn list_of(value: &Value, low: usize, high: usize, at: Place) -> Result<&[Value], Refusal>
    ensures few { IfOk result (λ s. length s.now ≤ high) }
    ensures gives { seen (λ s. map view s.now) result ≡ list_of low high at (view value.now) }
{
    let values = list(value, at)?;
    if values.len() < low || values.len() > high {
        return Err(refusal(Fault::Length, at));
    }
    Ok(values)
}

/// The first `count` items of a list that has at least so many. The others are ignored, whatever they are.
#[tactic(auto, using(crate::proofs::Items::first_is))]
pub fn first_items(value: &Value, count: usize, at: Place) -> Result<&[Value], Refusal>
    ensures few { IfOk result (λ s. length s.now ≡ count) }
    ensures gives { seen (λ s. map view s.now) result ≡ first_items count at (view value.now) }
{
    let values = list(value, at)?;
    if values.len() < count {
        return Err(refusal(Fault::Length, at));
    }
    Ok(&values[..count])
}

/// A name that no earlier item has; else Duplicate.
pub fn new_name<'a>(value: &'a Value, earlier: &Names, at: Place) -> Result<&'a str, Refusal>
    ensures new { IfOk result (λ s. finds earlier.now s.now ≡ None) }
    ensures gives { seen (λ s. s.now) result ≡ new_name (finds earlier.now) at (view value.now) }
{
    let text = text(value, at)?;
    if earlier.find(text).is_some() {
        return Err(refusal(Fault::Duplicate, at));
    }
    Ok(text)
}

/// The number of a name that is listed; else Unknown.
pub fn reference(value: &Value, numbers: &Names, at: Place) -> Result<u32, Refusal>
    ensures { result ≡ reference (finds numbers.now) at (view value.now) }
{
    let name = text(value, at)?;
    match numbers.find(name) {
        Some(n) => Ok(n),
        None => Err(refusal(Fault::Unknown, at)),
    }
}

/// The value of a key.
pub fn value_of(object: &Value, key: Key, at: Place) -> Result<&Value, Refusal>
    ensures { seen (λ v. view v.now) result
        ≡ or_else Missing (at_key key at) (get (key_name key) (view object.now)) }
{
    match object.get(key.name()) {
        Some(value) => Ok(value),
        None => Err(refusal(Fault::Missing, at.key(key))),
    }
}
