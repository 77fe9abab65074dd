//! What the lines of a journal come to that may be cut off or damaged.

ghost use Rattle.std.specs.Prelude.{◌≡◌, ◌++◌, IfOk, string_bytes};
ghost use Rattle.ih_top.specs.Below.Searches.{IsBase, base_given};
ghost use Rattle.ih_top.specs.{JournalUses.IsLinesFor, Texts.salvaged_line};
ghost use Rattle.ih_top.specs.declared.journals.JournalUse.TheVariants.{Salvage};
ghost use Rattle.ih_top.specs.declared.outcome.JournalOutcome.TheVariants.{Taken};

use crate::journal_lines::take_lines;
use crate::laws::whole_lines_are_salvaged;
use crate::output::{BestOutput, best_of};
use ih_desk::Given;
use ih_replay::Replay;
use itoa::Buffer;
use std::alloc::{AllocError, Global};

fn salvaged_line(alloc: Global, lines: u32) -> Result<String, AllocError>
    ensures { IfOk result (λ s. string_bytes s ≡ salvaged_line lines) }
{
    let mut buffer = Buffer::new();
    let lines = buffer.format(lines);
    format!(in alloc; "salvaged {lines}\n")
}

// A best with its solution, and with a line before its text that says of how many lines of a journal it is.
fn salvaged(alloc: Global, best: BestOutput, lines: u32) -> Result<BestOutput, AllocError>
    ensures solution { IfOk result (λ o. o.solution.items ≡ best.solution.items) }
    ensures text { IfOk result (λ o. o.text.items ≡ salvaged_line lines ++ best.text.items) }
{
    let BestOutput { solution, text } = best;
    let mut said = salvaged_line(alloc, lines)?.into_bytes();
    said.extend_from_slice(text.as_slice())?;
    Ok(BestOutput {
        solution,
        text: said,
    })
}

/// The best of the longest legal history whose lines stand behind a journal's heading.
pub fn salvage_lines(
    alloc: Global,
    given: &Given<'_>,
    bytes: &[u8],
) -> Result<Option<BestOutput>, AllocError>
    requires { IsBase (base_given given.now) }
    ensures { IfOk result (λ best. IsLinesFor Salvage (base_given given.now) bytes.now (Taken best)) }
{
    let mut replay = Replay::new(alloc, given.inst, given.start, &given.options, given.freeze)?;
    // Why no further line is taken doesn't count.
    let _ = take_lines(&mut replay, bytes);
    // For the proof alone.
    whole_lines_are_salvaged();
    let entries = replay.entries();
    match best_of(alloc, given, entries, replay.best())? {
        Some(best) => Ok(Some(salvaged(alloc, best, entries.len() as u32)?)),
        None => Ok(None),
    }
}
