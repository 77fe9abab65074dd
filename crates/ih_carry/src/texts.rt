//! Pieces of a text.

ghost use Rattle.std.specs.Prelude.{◌≡◌, ◌++◌, OnOk, decimal};

use itoa::Buffer;
use std::alloc::AllocError;

/// What appending gives: it fails only where memory runs out.
pub type Put = Result<(), AllocError>;

/// Appends a text.
pub fn put(out: &mut Vec<u8>, text: &str) -> Put
    ensures { OnOk result (out.new.items ≡ out.old.items ++ text.now) }
{
    out.extend_from_slice(text.as_bytes())
}

/// Appends a number and a text.
pub fn put_number(out: &mut Vec<u8>, number: u32, text: &str) -> Put
    ensures { OnOk result (out.new.items ≡ out.old.items ++ (decimal number ++ text.now)) }
{
    put(out, Buffer::new().format(number))?;
    put(out, text)
}
