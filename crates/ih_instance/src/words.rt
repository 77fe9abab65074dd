//! Shift types and age groups, whose items are names alone.

ghost use Rattle.std.specs.Prelude.{◌<◌};
ghost use Rattle.ih_format.specs.{Checks.new_name};

use ih_format::reads::Reads;
use ih_format::{FormatError, Row, json_values};
use ih_tables::Name;
use std::alloc::Global;

/// The reader of such items.
#[derive(Drop)]
pub struct Words;

impl Reads for Words {
    type Item = Name;

    ghost reading = { λ _. new_name };

    fn read(&self, alloc: Global, row: Row) -> Result<Name, FormatError> {
        let text = json_values::new_name(row.value, row.earlier, row.at)?;
        Ok(Name::new(String::from_str(alloc, text)?))
    }
}
