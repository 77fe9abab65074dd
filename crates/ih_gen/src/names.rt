//! Names and ids.

ghost use Rattle.std.specs.Prelude.{◌≡◌};
ghost use Rattle.ih_gen.specs.Generated.{age_name, gender_name, shift_name, id_data};
ghost use Rattle.ih_gen.specs.Members.{IsMade};

use itoa::Buffer;
use serde_json::Value;
use std::alloc::{AllocError, Global};

/// What making a value gives: it fails only where memory runs out.
pub type Made = Result<Value, AllocError>;

/// The name of a gender, 0 or 1.
pub fn gender_name(number: u32) -> &'static str
    ensures { result.now ≡ gender_name number }
{
    match number {
        0 => "A",
        _ => "B",
    }
}

/// The name of an age group, 0 to 3.
pub fn age_name(number: u32) -> &'static str
    ensures { result.now ≡ age_name number }
{
    match number {
        0 => "infant",
        1 => "child",
        2 => "adult",
        _ => "elderly",
    }
}

/// The name of a shift type, 0 to 2.
pub fn shift_name(number: u32) -> &'static str
    ensures { result.now ≡ shift_name number }
{
    match number {
        0 => "early",
        1 => "late",
        _ => "night",
    }
}

/// An id: a letter and a number.
pub fn id_value(alloc: Global, letter: &str, number: u32) -> Made
    ensures { IsMade (id_data letter.now number) result }
{
    let mut buffer = Buffer::new();
    let digits = buffer.format(number);
    let id = format!(in alloc; "{letter}{digits}")?;
    Ok(Value::String(id))
}
