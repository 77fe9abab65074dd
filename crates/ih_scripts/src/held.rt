//! What names hold.

use crate::texts::{are_lines, are_text};
use ih_shelf::MemShelf;
use std::alloc::Global;

/// Whether the name has such a text, without a line feed at its end.
pub(crate) fn holds(shelf: &MemShelf, name: &str, text: &str) -> bool {
    match shelf.get(name) {
        Some(bytes) => are_text(bytes, text),
        None => false,
    }
}

/// Whether the name has such lines, each with its line feed.
pub(crate) fn holds_lines(alloc: Global, shelf: &MemShelf, name: &str, text: &str) -> bool {
    match shelf.get(name) {
        Some(bytes) => are_lines(alloc, bytes, text),
        None => false,
    }
}

/// Whether the two names have the same bytes.
pub(crate) fn are_same(shelf: &MemShelf, name: &str, other: &str) -> bool {
    match (shelf.get(name), shelf.get(other)) {
        (Some(bytes), Some(others)) => bytes == others,
        _ => false,
    }
}

/// Whether the two names have the same lines behind their first ones.
pub(crate) fn have_same_lines(shelf: &MemShelf, name: &str, other: &str) -> bool {
    match (lines_behind(shelf, name), lines_behind(shelf, other)) {
        (Some(lines), Some(others)) => lines == others,
        _ => false,
    }
}

/// The text under the name, if it is one.
pub(crate) fn text_under<'a>(shelf: &'a MemShelf, name: &str) -> Option<&'a str> {
    match shelf.get(name) {
        Some(bytes) => str::from_utf8(bytes).ok(),
        None => None,
    }
}

/// The lines under the name behind its first one.
pub(crate) fn lines_behind<'a>(shelf: &'a MemShelf, name: &str) -> Option<&'a str> {
    let Some(text) = text_under(shelf, name) else {
        return None;
    };
    match text.split_once("\n") {
        Some((_, lines)) => Some(lines),
        None => None,
    }
}

// How many line feeds there are.
fn line_feeds(bytes: &[u8]) -> u64 {
    let mut lines: u64 = 0;
    for byte in bytes {
        if *byte == b'\n' {
            lines = lines.saturating_add(1);
        }
    }
    lines
}

/// Whether the name has a text of so many lines.
pub(crate) fn has_count(shelf: &MemShelf, name: &str, count: u64) -> bool {
    match shelf.get(name) {
        Some(bytes) => line_feeds(bytes) == count,
        None => false,
    }
}

fn is_there(page: &[u8], text: &[u8]) -> bool {
    for i in 0..page.len() {
        if page[i..].starts_with(text) {
            return true;
        }
    }
    false
}

/// Whether the name has a text in which this one stands.
pub(crate) fn shows(shelf: &MemShelf, name: &str, text: &str) -> bool {
    match shelf.get(name) {
        Some(page) => is_there(page, text.as_bytes()),
        None => false,
    }
}

// The checksum of a text by FNV-1a with 64 bits.
fn checksum(text: &[u8]) -> u64 {
    let mut sum: u64 = 0xcbf2_9ce4_8422_2325;
    for byte in text {
        sum = (sum ^ u64::from(*byte)).wrapping_mul(0x0000_0100_0000_01b3);
    }
    sum
}

/// Whether the name has a text of this checksum.
pub(crate) fn has_sum(shelf: &MemShelf, name: &str, sum: u64) -> bool {
    match shelf.get(name) {
        Some(text) => checksum(text) == sum,
        None => false,
    }
}
