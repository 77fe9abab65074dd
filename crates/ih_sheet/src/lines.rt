//! Texts and lines of an iCalendar file (RFC 5545).

ghost use Rattle.std.specs.Prelude.{◌≡◌, ◌++◌, IfOk, OnOk, flat_map, map};
ghost use Rattle.ih_sheet.specs.Calendar.{digits, escaped, escaped_byte, is_special, line_text};

use jiff::civil::Date;
use std::alloc::{AllocError, Global};

// Whether the byte has a meaning in a text.
fn is_special(byte: u8) -> bool
    ensures { result ≡ is_special byte }
{
    byte == b'\\' || byte == b';' || byte == b','
}

// Appends what stands for a byte of a name.
fn put_byte(out: &mut Vec<u8>, byte: u8) -> Result<(), AllocError>
    ensures { OnOk result (out.new.items ≡ out.old.items ++ escaped_byte byte) }
{
    if byte == b'\n' {
        out.extend_from_slice(b"\\n")
    } else if byte.is_ascii_control() {
        out.extend_from_slice(b" ")
    } else if is_special(byte) {
        out.extend_from_slice(&[b'\\', byte])
    } else {
        out.extend_from_slice(&[byte])
    }
}

/// The name, whose signs have no meaning in a calendar, and which ends no line.
pub fn escaped(alloc: Global, name: &str) -> Result<Vec<u8>, AllocError>
    ensures { IfOk result (λ text. text.items ≡ escaped name.now) }
{
    let bytes = name.as_bytes();
    let mut text = Vec::new(alloc);
    for byte in bytes {
        put_byte(&mut text, *byte)?;
    }
    Ok(text)
}

/// The date as 20260105.
pub fn digits(alloc: Global, date: Date) -> Result<Vec<u8>, AllocError>
    ensures { IfOk result (λ text. text.items ≡ digits date) }
{
    let dashed = date.to_string(alloc)?;
    let bytes = dashed.as_bytes();
    let mut text = Vec::new(alloc);
    for byte in bytes {
        if *byte != b'-' {
            text.push(*byte)?;
        }
    }
    Ok(text)
}

// Appends a line of these parts.
#[tactic(auto, unfolding(crate::specs::Calendar::line_text))]
fn put_line(out: &mut Vec<u8>, parts: &[&[u8]]) -> Result<(), AllocError>
    ensures { OnOk result (out.new.items ≡ out.old.items ++ line_text (map (λ part. part.now) parts.now)) }
{
    for part in parts {
        out.extend_from_slice(part)?;
    }
    out.extend_from_slice(b"\r\n")
}

/// Appends lines, each of its parts.
#[tactic(auto, using(crate::proofs::CalendarSteps::calendar_steps))]
pub fn put_lines(out: &mut Vec<u8>, lines: &[&[&[u8]]]) -> Result<(), AllocError>
    ensures { OnOk result (out.new.items ≡ out.old.items ++ flat_map line_text
        (map (λ line. map (λ part. part.now) line.now) lines.now)) }
{
    for line in lines {
        put_line(out, line)?;
    }
    Ok(())
}
