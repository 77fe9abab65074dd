//! JSON inside an element of HTML.

ghost use Rattle.std.specs.Prelude.{◌≡◌, ◌<◌, ◌++◌, length, slice_index, OnOk};
ghost use Rattle.ih_template.specs.Escapes.{escaped, escaped_at, escaped_byte, is_separator, is_within, separator_name};

use std::alloc::AllocError;

/// Appends a text.
pub fn put(out: &mut Vec<u8>, text: &str) -> Result<(), AllocError>
    ensures { OnOk result (out.new.items ≡ out.old.items ++ text.now) }
{
    out.extend_from_slice(text.as_bytes())
}

// The byte at a place, and 0 past the end.
fn byte_at(text: &[u8], place: usize) -> u8
    ensures { result ≡ slice_index text.now place }
{
    if place < text.len() { text[place] } else { 0 }
}

// Whether U+2028 or U+2029 begins there.
fn is_separator(text: &[u8], place: usize) -> bool
    requires { place < length text.now }
    ensures { result ≡ is_separator text.now place }
{
    text[place] == 226
        && byte_at(text, place + 1) == 128
        && (byte_at(text, place + 2) == 168 || byte_at(text, place + 2) == 169)
}

// Whether the byte is one of the later two of such a sign.
fn is_within(text: &[u8], place: usize) -> bool
    requires { place < length text.now }
    ensures { result ≡ is_within text.now place }
{
    is_separator(text, place.saturating_sub(1)) || is_separator(text, place.saturating_sub(2))
}

fn put_byte(out: &mut Vec<u8>, byte: u8) -> Result<(), AllocError>
    ensures { OnOk result (out.new.items ≡ out.old.items ++ escaped_byte byte) }
{
    match byte {
        38 => put(out, "\\u0026"),
        60 => put(out, "\\u003c"),
        62 => put(out, "\\u003e"),
        b => {
            out.push(b)?;
            Ok(())
        }
    }
}

fn put_separator(out: &mut Vec<u8>, last: u8) -> Result<(), AllocError>
    ensures { OnOk result (out.new.items ≡ out.old.items ++ separator_name last) }
{
    if last == 168 {
        put(out, "\\u2028")
    } else {
        put(out, "\\u2029")
    }
}

#[tactic(auto, unfolding(crate::specs::Escapes::escaped_at))]
fn put_at(out: &mut Vec<u8>, text: &[u8], place: usize) -> Result<(), AllocError>
    requires { place < length text.now }
    ensures { OnOk result (out.new.items ≡ out.old.items ++ escaped_at text.now place) }
{
    if is_separator(text, place) {
        put_separator(out, byte_at(text, place + 2))
    } else if is_within(text, place) {
        Ok(())
    } else {
        put_byte(out, text[place])
    }
}

/// Appends a text of JSON, escaped.
#[tactic(auto, using(crate::proofs::Lines::put_steps))]
pub fn put_escaped(out: &mut Vec<u8>, text: &[u8]) -> Result<(), AllocError>
    ensures { OnOk result (out.new.items ≡ out.old.items ++ escaped text.now) }
{
    for i in 0..text.len() {
        put_at(out, text, i)?;
    }
    Ok(())
}
