//! The template with data in its place.

ghost use Rattle.std.specs.Prelude.{◌≡◌, ◌++◌, OnOk, IfOk, false};
ghost use Rattle.serde_json.specs.{View.view, Written.compact_text, Written.has_float};
ghost use Rattle.ih_template.specs.Filling.{in_template};

use crate::escapes::{put, put_escaped};
use crate::template::{HEAD, TAIL};
use serde_json::Value;
use std::alloc::{AllocError, Global};

// The template with a text of JSON in its place.
fn put_page(out: &mut Vec<u8>, text: &[u8]) -> Result<(), AllocError>
    ensures { OnOk result (out.new.items ≡ out.old.items ++ in_template text.now) }
{
    put(out, HEAD)?;
    put_escaped(out, text)?;
    put(out, TAIL)
}

/// The template with the text of data in its place.
pub fn page_with(alloc: Global, data: &Value) -> Result<Vec<u8>, AllocError>
    requires { has_float (view data.now) ≡ false }
    ensures { IfOk result (λ page. page.items ≡ in_template (compact_text (view data.now))) }
{
    let text = data.to_vec(alloc)?;
    let mut out = Vec::new(alloc);
    put_page(&mut out, text.as_slice())?;
    Ok(out)
}
