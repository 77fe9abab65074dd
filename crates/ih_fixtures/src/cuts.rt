//! Texts that are cut in two, or have a part replaced.

use std::alloc::AllocError;

/// What stands before and behind the first of these, or all and nothing.
pub fn cut<'a>(text: &'a str, at: &str) -> (&'a str, &'a str) {
    text.split_once(at).unwrap_or((text, ""))
}

/// Adds the text, with another part in place of the first of these. Whether there is one.
pub fn put_changed(out: &mut String, text: &str, old: &str, new: &str) -> Result<bool, AllocError> {
    match text.split_once(old) {
        None => Ok(false),
        Some((before, after)) => {
            out.push_str(before)?;
            out.push_str(new)?;
            out.push_str(after)?;
            Ok(true)
        }
    }
}
