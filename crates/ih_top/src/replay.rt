//! What the lines of a journal come to that has to be that of a full history.

ghost use Rattle.std.specs.Prelude.{IfOk};
ghost use Rattle.ih_top.specs.Below.Searches.{IsBase, base_given};
ghost use Rattle.ih_top.specs.JournalUses.{IsLinesFor};
ghost use Rattle.ih_top.specs.declared.journals.JournalUse.TheVariants.{Replay as ForReplay};

use crate::journal_lines::take_lines;
use crate::laws::refused_lines_are_not_full;
use crate::outcome::JournalOutcome;
use crate::output::best_of;
use ih_desk::Given;
use ih_replay::Replay;
use std::alloc::{AllocError, Global};

/// What the lines behind a journal's heading come to, which have to be those of a full history.
pub fn replay_lines(
    alloc: Global,
    given: &Given<'_>,
    bytes: &[u8],
) -> Result<JournalOutcome, AllocError>
    requires { IsBase (base_given given.now) }
    ensures { IfOk result (IsLinesFor ForReplay (base_given given.now) bytes.now) }
{
    let mut replay = Replay::new(alloc, given.inst, given.start, &given.options, given.freeze)?;
    match take_lines(&mut replay, bytes) {
        Ok(()) => {
            let entries = replay.entries();
            let best = best_of(alloc, given, entries, replay.best())?;
            Ok(JournalOutcome::Taken(best))
        }
        Err(refusal) => {
            // For the proof alone.
            refused_lines_are_not_full();
            Ok(JournalOutcome::Refused(refusal))
        }
    }
}
