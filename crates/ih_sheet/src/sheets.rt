//! Rows as a text of comma-separated values.

ghost use Rattle.std.specs.Prelude.{◌≡◌, IfOk, map};
ghost use Rattle.csv.specs.Records.{fields_of};
ghost use Rattle.ih_sheet.specs.Sheets.{sheet_text};

use csv::{StringRecord, Writer, WriterBuilder};
use std::alloc::{AllocError, Global};

/// The text of the rows, each with its line feed. Fields with commas, quotes or line feeds stand between quotes.
pub fn sheet_text(alloc: Global, rows: &[StringRecord]) -> Result<Vec<u8>, AllocError>
    ensures { IfOk result (λ text. text.items ≡ sheet_text (map fields_of rows.now)) }
{
    let mut writer: Writer<Vec<u8>> = WriterBuilder::new().from_writer(Vec::new(alloc));
    for row in rows {
        if writer.write_byte_record(row.as_byte_record()).is_err() {
            return Err(AllocError);
        }
    }
    match writer.into_inner() {
        Ok(text) => Ok(text),
        Err(_) => Err(AllocError),
    }
}
