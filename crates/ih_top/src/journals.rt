//! The commands `replay` and `salvage`: what they come to by a journal.

ghost use Rattle.std.specs.Prelude.{◌≡◌, [], IfOk, option_map, unwrap_or};
ghost use Rattle.ih_top.specs.Below.Wards.{IsPlanOf};
ghost use Rattle.ih_top.specs.Below.Arguments.{replay_call, start_call};
ghost use Rattle.ih_top.specs.Below.Searches.{IsBase, base_given};
ghost use Rattle.ih_top.specs.{Commands.replay_inputs, JournalFiles.read_from};
ghost use Rattle.ih_top.specs.JournalUses.{IsJournalUse, IsLinesFor, IsOutcomeFor};

use crate::journal_heading::heading_of;
use crate::outcome::{JournalOutcome, headless, journal_outcome};
use crate::replay::replay_lines;
use crate::salvage::salvage_lines;
use ih_desk::Given;
use ih_frame::{Command, Made, two_names};
use ih_inputs::{InputNames, Inputs};
use ih_parfill::search_start;
use ih_words::{Replay, Start};
use std::alloc::{AllocError, Global};
use std::sync::Wait;
use std::thread::Threads;

/// What a journal is read for.
#[derive(Clone, Copy)]
pub enum JournalUse {
    /// It has to be that of a full history.
    Replay,
    /// It may be cut off or damaged behind its heading: its lines are taken as far as they are those of a legal
    /// history.
    Salvage,
}

/// A call of `replay` or of `salvage`.
#[derive(Drop)]
pub struct Taking<'c, 'w> {
    pub journal_use: JournalUse,
    pub call: &'c Replay<'w>,
}

// What the lines behind a journal's heading come to.
fn lines_outcome(
    alloc: Global,
    journal_use: JournalUse,
    given: &Given<'_>,
    bytes: &[u8],
) -> Result<JournalOutcome, AllocError>
    requires { IsBase (base_given given.now) }
    ensures { IfOk result (IsLinesFor journal_use (base_given given.now) bytes.now) }
{
    match journal_use {
        JournalUse::Replay => replay_lines(alloc, given, bytes),
        JournalUse::Salvage => {
            let best = salvage_lines(alloc, given, bytes)?;
            Ok(JournalOutcome::Taken(best))
        }
    }
}

// What a journal comes to: its heading's search is begun, as the words say, and its lines are taken.
fn found_in<R: Threads + Wait + Sync>(
    rt: &R,
    alloc: Global,
    journal_use: JournalUse,
    start: &Start<'_>,
    inputs: Inputs,
    bytes: &[u8],
) -> Result<JournalOutcome, AllocError>
    requires { IsPlanOf inputs.inst.value.draft inputs.plan }
    ensures { IfOk result (IsOutcomeFor journal_use (start_call start.now) (read_from inputs bytes.now)) }
{
    let Some((options, lines)) = heading_of(bytes) else {
        return Ok(headless());
    };
    let begun = search_start(rt, alloc, inputs, start.fill, options.hard, options.workers)?;
    let given = Given {
        inst: &*begun.inst,
        start: &begun.start,
        options,
        freeze: start.freeze,
    };
    lines_outcome(alloc, journal_use, &given, lines)
}

// The bytes of a journal. A call that names one has them.
fn bytes_of(alloc: Global, journal: Option<Vec<u8>>) -> Vec<u8>
    ensures { result.items ≡ unwrap_or (option_map (λ v. v.items) journal) [] }
{
    match journal {
        Some(bytes) => bytes,
        None => Vec::new(alloc),
    }
}

impl<'c, 'w> Command for Taking<'c, 'w> {
    ghost files = { λ t. replay_inputs (replay_call t.call.now) };

    ghost comes_to = { λ t. IsJournalUse t.journal_use (replay_call t.call.now) };

    fn names(&self) -> InputNames<'_> {
        InputNames {
            journal: Some(self.call.journal),
            ..two_names(self.call.instance, self.call.start.file, false)
        }
    }

    fn outcome<R: Threads + Wait + Sync>(&self, rt: &R, alloc: Global, inputs: Inputs) -> Made<'_> {
        let Inputs {
            inst,
            plan,
            older,
            journal,
            next,
        } = inputs;
        let bytes = bytes_of(alloc, journal);
        let read = Inputs {
            inst,
            plan,
            older,
            journal: None,
            next,
        };
        let start = &self.call.start;
        let found = found_in(rt, alloc, self.journal_use, start, read, bytes.as_slice())?;
        journal_outcome(alloc, self.call.out, found)
    }
}
