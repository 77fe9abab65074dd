//! The text of a history's journal.

ghost use Rattle.std.specs.Prelude.{◌≡◌, ◌<◌, ◌^◌, All, IfOk, OnOk, length, ◌++◌};
ghost use Rattle.ih_tables.specs.Bills.{IsWithin};
ghost use Rattle.ih_journal.specs.Texts.{journal, lines_from};

use ih_journal::{Entry, LineRoom, Options, head_line};
use std::alloc::{AllocError, Global};

fn put_lines(options: &Options, entries: &[Entry], out: &mut Vec<u8>) -> Result<(), AllocError>
    requires few { length entries.now < 2 ^ 31 }
    requires prices { All (λ e. IsWithin (10 ^ 11) e.price) entries.now }
    ensures { OnOk result (out.new.items ≡ out.old.items ++ lines_from options.now 0 entries.now) }
{
    let mut room = LineRoom::new();
    let mut place = 0;
    for entry in entries {
        room.put(options, place, entry, out)?;
        place += 1;
    }
    Ok(())
}

/// Appends the text of a journal. Where memory runs out, an unknown text stands behind what was there.
pub fn put_journal(
    options: &Options,
    entries: &[Entry],
    out: &mut Vec<u8>,
) -> Result<(), AllocError>
    requires few { length entries.now < 2 ^ 31 }
    requires prices { All (λ e. IsWithin (10 ^ 11) e.price) entries.now }
    ensures { OnOk result (out.new.items ≡ out.old.items ++ journal options.now entries.now) }
{
    head_line(options, out)?;
    put_lines(options, entries, out)
}

/// The text of a journal.
pub fn journal_text(
    alloc: Global,
    options: &Options,
    entries: &[Entry],
) -> Result<Vec<u8>, AllocError>
    requires few { length entries.now < 2 ^ 31 }
    requires prices { All (λ e. IsWithin (10 ^ 11) e.price) entries.now }
    ensures { IfOk result (λ text. text.items ≡ journal options.now entries.now) }
{
    let mut out = Vec::new(alloc);
    put_journal(options, entries, &mut out)?;
    Ok(out)
}
