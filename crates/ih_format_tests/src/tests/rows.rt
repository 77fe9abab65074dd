//! Tables of examples: a text with a line for each row, since each item of an array is dear to prove.

use std::process::Abort;

/// Ends the test where a row is wrong, and names it.
pub(crate) fn none_is_wrong<R: Abort>(rt: &R, row: &str) {
    assert!(rt; row.is_empty(), "{row}");
}
