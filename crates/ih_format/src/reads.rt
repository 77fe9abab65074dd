//! Lists of items with distinct ids. One loop reads them all, by the reader of their kind, and makes the
//! table in which later references are looked up.

ghost use Rattle.std.specs.Prelude.{◌≡◌, ◌<◌, ◌≤◌, ◌^◌, ℕ, List as Items, Option, Result, IfOk, None, map, length};
ghost use Rattle.serde_json.specs.{View.view};
ghost use Rattle.ih_tables.specs.{Lookups.finds, Lookups.IsIndexOf};
ghost use Rattle.ih_format.specs.Gives.{Gives};
ghost use Rattle.ih_format.specs.Checks.{Check, each_named, named, under};

use crate::errors::FormatError;
use crate::json_values;
use crate::rows::Row;
use ih_tables::{HasId, Key, List, Names, Place};
use serde_json::Value;
use std::alloc::Global;

/// The reader of one kind of item.
pub trait Reads {
    type Item: HasId + Drop;

    // How an item is read, where the ids of earlier items have these numbers.
    ghost reading: { Self → (Items ℕ → Option ℕ) → Check Self.Item };

    fn read(&self, alloc: Global, row: Row) -> Result<Self::Item, FormatError>
        ensures new { IfOk result (λ x. finds row.entry.earlier.now (Self.Item.id x) ≡ None) }
        ensures gives { Gives (λ x. x) result
            (reading self.now (finds row.entry.earlier.now) row.entry.at (view row.entry.value.now)) };
}

// Items in their order, each whole before the next, and the numbers of their ids.
#[tactic(auto, using(crate::proofs::Named::naming))]
fn each<R: Reads>(
    alloc: Global,
    reader: &R,
    values: &[Value],
    at: Place,
) -> Result<(List<R::Item>, Names), FormatError>
    requires { length values.now < 2 ^ 32 }
    ensures few { IfOk result (λ x. length x.0 ≤ length values.now) }
    ensures numbers { IfOk result (λ x. IsIndexOf x.1 (map R.Item.id x.0)) }
    ensures gives { Gives (λ x. x.0) result (each_named R.Item.id (R.reading reader.now) at (map view values.now)) }
{
    let mut items = Vec::new(alloc);
    let mut numbers = Names::new(alloc);
    let mut i = 0;
    for value in values {
        let row = Row {
            value,
            earlier: &numbers,
            at: at.item(i),
        };
        let item = reader.read(alloc, row)?;
        numbers.add(alloc, item.id(), i)?;
        items.push(item)?;
        i += 1;
    }
    Ok((List::new(items), numbers))
}

/// The list under a key, of low to high such items.
pub fn under<R: Reads>(
    alloc: Global,
    reader: &R,
    object: &Value,
    key: Key,
    low: usize,
    high: usize,
    at: Place,
) -> Result<(List<R::Item>, Names), FormatError>
    requires { high < 2 ^ 32 }
    ensures few { IfOk result (λ x. length x.0 ≤ high) }
    ensures numbers { IfOk result (λ x. IsIndexOf x.1 (map R.Item.id x.0)) }
    ensures gives { Gives (λ x. x.0) result
        (under at (view object.now) key (named low high R.Item.id (R.reading reader.now))) }
{
    let value = json_values::value_of(object, key, at)?;
    let at = at.key(key);
    let values = json_values::list_of(value, low, high, at)?;
    each(alloc, reader, values, at)
}

/// The items of the list under a key, without their numbers.
pub fn items_under<R: Reads>(
    alloc: Global,
    reader: &R,
    object: &Value,
    key: Key,
    high: usize,
    at: Place,
) -> Result<List<R::Item>, FormatError>
    requires { high < 2 ^ 32 }
    ensures { Gives (λ x. x) result (under at (view object.now) key (named 0 high R.Item.id (R.reading reader.now))) }
{
    let (items, _) = under(alloc, reader, object, key, 0, high, at)?;
    Ok(items)
}
