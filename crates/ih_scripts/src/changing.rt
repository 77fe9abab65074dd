//! Files that are laid out before a call.

use crate::examples::given;
use crate::held::text_under;
use ih_fixtures::put_changed;
use ih_shelf::MemShelf;
use std::alloc::{AllocError, Global};

// The text that the name has among the examples, or else on the shelf.
fn text_of<'a>(shelf: &'a MemShelf, name: &str) -> &'a str {
    let example = given(name);
    if example.is_empty() {
        text_under(shelf, name).unwrap_or("")
    } else {
        example
    }
}

/// Whether a name gets the text of a file, in which `to` stands where `from` stood, and that stood there.
pub(crate) fn change(
    alloc: Global,
    shelf: &mut MemShelf,
    name: &str,
    file: &str,
    from: &str,
    to: &str,
) -> bool {
    let mut made = String::new(alloc);
    matches!(
        put_changed(&mut made, text_of(shelf, file), from, to),
        Ok(true)
    ) && shelf.store(name, made.as_bytes()).is_ok()
}

/// Stores the name's text with another behind it.
pub(crate) fn add(
    alloc: Global,
    shelf: &mut MemShelf,
    name: &str,
    text: &str,
) -> Result<(), AllocError> {
    let mut made = String::from_str(alloc, text_of(shelf, name))?;
    made.push_str(text)?;
    shelf.store(name, made.as_bytes())
}

/// Stores the instance of a name under `i` and the solution of a name under `s`.
pub(crate) fn lay(shelf: &mut MemShelf, instance: &str, solution: &str) -> Result<(), AllocError> {
    shelf.store("i", given(instance).as_bytes())?;
    shelf.store("s", given(solution).as_bytes())
}

/// Stores so many spaces under the name.
pub(crate) fn store_spaces(
    alloc: Global,
    shelf: &mut MemShelf,
    name: &str,
    count: u64,
) -> Result<(), AllocError> {
    let spaces = vec![in alloc; b' '; count as usize]?;
    shelf.store(name, spaces.as_slice())
}
