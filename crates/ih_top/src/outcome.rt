//! What a journal comes to, and how that is written and said.

ghost use Rattle.std.specs.Prelude.{◌≡◌, IfOk};
ghost use Rattle.ih_top.specs.Below.Endings.{IsOwnStatus, outcome_of};
ghost use Rattle.ih_top.specs.Outputs.{journal_outcome};

use crate::output::BestOutput;
use crate::texts::{journal_refused_text, none_found_text};
use ih_endings::{Role, Status};
use ih_frame::{Made, Outcome};
use ih_journal::{JournalRefusal, Reason};
use std::alloc::Global;

/// What a journal comes to.
#[derive(Drop)]
pub enum JournalOutcome {
    /// It is refused.
    Refused(JournalRefusal),
    /// A history was taken from it, and this is its best, where some timetable of it is feasible.
    Taken(Option<BestOutput>),
}

/// Line 1 is no heading.
pub fn headless() -> JournalOutcome
    ensures { result ≡ JournalOutcome.Refused (record { line = 1; reason = Reason.Heading }) }
{
    JournalOutcome::Refused(JournalRefusal {
        line: 1,
        reason: Reason::Heading,
    })
}

/// The solution of the best is written, where there is one.
pub fn journal_outcome<'a>(alloc: Global, out: &'a str, found: JournalOutcome) -> Made<'a>
    ensures outcome { IfOk result (λ o. outcome_of o ≡ journal_outcome out.entry.now found) }
    ensures own { IfOk result (λ o. IsOwnStatus o.status) }
{
    match found {
        JournalOutcome::Refused(refusal) => {
            let text = journal_refused_text(alloc, refusal)?;
            Ok(Outcome::said(alloc, Status::JournalRefused(refusal), text))
        }
        JournalOutcome::Taken(None) => {
            let text = none_found_text(alloc)?;
            Ok(Outcome::said(alloc, Status::NoneFound, text))
        }
        JournalOutcome::Taken(Some(best)) => {
            Outcome::written(alloc, Role::Out, out, best.solution, best.text)
        }
    }
}
