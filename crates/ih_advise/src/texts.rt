//! The text of advice.

ghost use Rattle.std.specs.Prelude.{◌≡◌, ◌++◌, IfOk, OnOk};
ghost use Rattle.ih_advise.specs.Texts.{advice_line, advice_text, last_line, write_text};

use crate::choosing::Advice;
use ih_journal::{named_text, price_text};
use ih_plan::Write;
use itoa::Buffer;
use std::alloc::{AllocError, Global};

// Appends a text.
fn put(out: &mut Vec<u8>, text: &str) -> Result<(), AllocError>
    ensures { OnOk result (out.new.items ≡ out.old.items ++ text.now) }
{
    out.extend_from_slice(text.as_bytes())
}

// Writes a write by its name and its numbers.
fn put_write(out: &mut Vec<u8>, write: &Write) -> Result<(), AllocError>
    ensures { OnOk result (out.new.items ≡ out.old.items ++ write_text write.now) }
{
    match *write {
        Write::SetStay(p, Some(at)) => {
            named_text("setstay", p.0, &[at.day.0, at.room.0, at.theatre.0], out)
        }
        Write::SetStay(p, None) => {
            named_text("setstay", p.0, &[], out)?;
            put(out, ",none")
        }
        Write::SetCare(r, k, Some(n)) => named_text("setcare", r.0, &[k.0, n.0], out),
        Write::SetCare(r, k, None) => {
            named_text("setcare", r.0, &[k.0], out)?;
            put(out, ",none")
        }
    }
}

// Writes a line of advice.
fn put_line(out: &mut Vec<u8>, advice: &Advice) -> Result<(), AllocError>
    ensures { OnOk result (out.new.items ≡ out.old.items ++ advice_line advice.now) }
{
    put_write(out, &advice.write)?;
    put(out, " ")?;
    put(out, Buffer::new().format(advice.score))?;
    put(out, " ")?;
    price_text(&advice.price, out)?;
    put(out, "\n")
}

// Writes the last line: how many choices can be improved.
fn put_last(out: &mut Vec<u8>, count: usize) -> Result<(), AllocError>
    ensures { OnOk result (out.new.items ≡ out.old.items ++ last_line count) }
{
    if count == 0 {
        return put(out, "locally best\n");
    }
    put(out, "improvable ")?;
    put(out, Buffer::new().format(count))?;
    put(out, "\n")
}

/// The text of advice: a line for each, and last how many there are, or that there is none.
pub fn advice_text(alloc: Global, list: &[Advice]) -> Result<Vec<u8>, AllocError>
    ensures { IfOk result (λ v. v.items ≡ advice_text list.now) }
{
    let mut out = Vec::new(alloc);
    for a in list {
        put_line(&mut out, a)?;
    }
    put_last(&mut out, list.len())?;
    Ok(out)
}
