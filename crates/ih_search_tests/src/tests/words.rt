//! The words of the tests' texts.

use ih_fixtures::{number, word};

/// The two numbers of a text.
pub(crate) fn pair(text: &str) -> (u32, u32) {
    let (first, second) = word(text);
    (number(first), number(second))
}

// The cell and the version that stand so: `14.1`.
fn read(word: &str) -> (u32, u32) {
    let (cell, version) = word.split_once(".").unwrap_or((word, ""));
    (number(cell), number(version))
}

/// Whether the cells that were read are these, with commas between them, each with its version.
pub(crate) fn are_reads(reads: &[(u32, u32)], text: &str) -> bool {
    let mut left = text;
    for told in reads {
        let (first, behind) = left.split_once(",").unwrap_or((left, ""));
        if *told != read(first) {
            return false;
        }
        left = behind;
    }
    left.is_empty()
}
