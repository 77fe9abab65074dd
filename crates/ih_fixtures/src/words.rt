//! The words of tests' texts.

use crate::cuts::cut;

/// The first word, and what stands behind it.
pub fn word(text: &str) -> (&str, &str) {
    cut(text, " ")
}

/// The number that a word is, or else one that the tests don't have.
pub fn number(word: &str) -> u32 {
    match word.parse::<u32>() {
        Ok(number) => number,
        Err(_) => u32::MAX,
    }
}
