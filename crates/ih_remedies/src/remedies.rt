//! The line that says how a refused file is mended.

ghost use Rattle.std.specs.Prelude.{◌≡◌, ◌≤◌, length, IfErr, IfOk, OnErr, Some, None, string_bytes};
ghost use Rattle.serde_json.specs.View.{view};
ghost use Rattle.ih_format.specs.Documents.{value_of};
ghost use Rattle.ih_remedies.specs.Remedies.{IsRemedy, IsSaid, line};

use crate::broken::{byte_at, said_of_bytes};
use crate::sentences::sentence;
use crate::values::Text;
use ih_tables::Refusal;
use serde_json::Value;
use std::alloc::{AllocError, Global};

// A sentence as a line, and nothing where there is no sentence.
#[tactic(auto, unfolding(crate::specs::Remedies::line))]
fn line(alloc: Global, said: &str) -> Text
    ensures { IfOk result (λ s. string_bytes s ≡ line said.now) }
{
    if said.is_empty() {
        Ok(String::new(alloc))
    } else {
        format!(in alloc; "  {said}\n")
    }
}

// The value that the bytes are, or else the byte at which the reader of JSON stopped.
#[tactic(auto, using(crate::proofs::Saying::values))]
fn parse(alloc: Global, bytes: &[u8]) -> Result<Result<Value, usize>, AllocError>
    ensures value { IfOk result (λ r. IfOk r (λ v. value_of bytes.now ≡ Some (view v))) }
    ensures none { IfOk result (λ r. OnErr r (value_of bytes.now ≡ None)) }
    ensures within { IfOk result (λ r. IfErr r (λ n. n ≤ length bytes.now)) }
{
    match Value::from_slice(alloc, bytes) {
        Ok(file) => Ok(Ok(file)),
        Err(e) => {
            if e.is_memory() {
                return Err(AllocError);
            }
            if e.is_eof() {
                return Ok(Err(bytes.len()));
            }
            Ok(Err(byte_at(bytes, e.line(), e.column())))
        }
    }
}

// What is said of a refused file.
#[tactic(auto, using(crate::proofs::Saying::saying))]
fn said_of(alloc: Global, bytes: &[u8], refusal: Refusal) -> Text
    ensures { IfOk result (λ s. IsSaid bytes.now (value_of bytes.now) refusal (string_bytes s)) }
{
    match parse(alloc, bytes)? {
        Ok(file) => {
            let said = sentence(alloc, refusal.fault, refusal.at, &file)?;
            Ok(said)
        }
        Err(at) => {
            let said = said_of_bytes(alloc, bytes, at)?;
            Ok(said)
        }
    }
}

/// The line that says what a person needs to mend the refused file; empty where there is nothing to say.
pub fn remedy(alloc: Global, bytes: &[u8], refusal: Refusal) -> Result<Vec<u8>, AllocError>
    ensures { IfOk result (λ text. IsRemedy bytes.now refusal text.items) }
{
    let said = said_of(alloc, bytes, refusal)?;
    let text = line(alloc, said.as_str())?;
    Ok(text.into_bytes())
}
