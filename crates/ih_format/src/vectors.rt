//! Vectors: lists of at least so many numbers, of which the first count.

ghost use Rattle.std.specs.Prelude.{◌<◌, ◌^◌, map, length};
ghost use Rattle.serde_json.specs.View.{view};
ghost use Rattle.ih_format.specs.Gives.{Gives};
ghost use Rattle.ih_format.specs.Checks.{number, vector, each};

use crate::errors::FormatError;
use crate::json_values;
use ih_tables::{List, Place};
use serde_json::Value;
use std::alloc::Global;

#[tactic(auto, using(crate::proofs::Items::reading))]
fn numbers(alloc: Global, values: &[Value], high: u32, at: Place) -> Result<List<u32>, FormatError>
    requires { length values.now < 2 ^ 32 }
    ensures { Gives (λ xs. xs) result (each (λ _. number 0 high) at (map view values.now)) }
{
    let mut read = Vec::new(alloc);
    let mut i = 0;
    for value in values {
        read.push(json_values::number(value, 0, high, at.item(i))?)?;
        i += 1;
    }
    Ok(List::new(read))
}

pub(crate) fn vector(
    alloc: Global,
    value: &Value,
    length: usize,
    high: u32,
    at: Place,
) -> Result<List<u32>, FormatError>
    requires { length < 2 ^ 32 }
    ensures { Gives (λ xs. xs) result (vector length high at (view value.now)) }
{
    let values = json_values::first_items(value, length, at)?;
    numbers(alloc, values, high, at)
}
