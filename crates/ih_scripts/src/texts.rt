//! What a script says of a text.

use crate::examples::given;
use crate::reports::spelled_out;
use std::alloc::Global;

/// The text of a name behind an equals sign, or else the text itself.
pub(crate) fn meant(text: &str) -> &str {
    match text.strip_prefix("= ") {
        Some(name) => given(name),
        None => text,
    }
}

// Whether the bytes begin and end as the text does around its dots, or are those of a text without dots.
fn are_like(bytes: &[u8], text: &str) -> bool {
    match text.split_once("\u{2026}") {
        Some((start, end)) => {
            bytes.starts_with(start.as_bytes()) && bytes.ends_with(end.as_bytes())
        }
        None => bytes == text.as_bytes(),
    }
}

/// Whether the bytes are such a text, without a line feed at its end.
pub(crate) fn are_text(bytes: &[u8], text: &str) -> bool {
    match text.strip_prefix("= ") {
        Some(name) => bytes == given(name).as_bytes(),
        None => are_like(bytes, text),
    }
}

/// Whether the bytes are such lines, each with its line feed. No text is no line.
pub(crate) fn are_lines(alloc: Global, bytes: &[u8], text: &str) -> bool {
    if text.is_empty() || text.starts_with("= ") {
        return are_text(bytes, text);
    }
    match spelled_out(alloc, text) {
        Ok(lines) => are_like(bytes, lines.as_str()),
        Err(_) => false,
    }
}

/// The number that a word is.
pub(crate) fn number(word: &str) -> Option<u64> {
    match word.parse::<u64>() {
        Ok(number) => Some(number),
        Err(_) => None,
    }
}
