//! The texts of one line, and the answer that the words name no call.

ghost use Rattle.std.specs.Prelude.{◌≡◌, IfOk};
ghost use Rattle.ih_top.specs.Below.Endings.{IsSaid, none_found_text};
ghost use Rattle.ih_top.specs.Texts.{journal_refused_text, reason_text, usage_text};

use ih_endings::{Answer, Status, said};
use ih_journal::{JournalRefusal, Reason};
use std::alloc::{AllocError, Global};

/// The words name no call.
#[tactic(auto, using(ih_endings::proofs::Saying::said_by), unfolding(crate::specs::Texts::usage_text))]
pub fn usage(alloc: Global) -> Answer
    ensures { IsSaid Status.Usage usage_text result }
{
    let text = String::from_str(
        alloc,
        "usage: solve INSTANCE OUT JOURNAL, replay INSTANCE JOURNAL OUT, salvage INSTANCE JOURNAL OUT, check INSTANCE SOLUTION, advise INSTANCE SOLUTION, chain INSTANCE OUT JOURNAL, rounds INSTANCE OUT JOURNAL, gen NUMBER OUT or demo NUMBER\n",
    );
    said(alloc, Status::Usage, text)
}

fn reason_name(reason: Reason) -> &'static str
    ensures { result.now ≡ reason_text reason }
{
    match reason {
        Reason::Heading => "Heading",
        Reason::Extra => "Extra",
        Reason::Grammar => "Grammar",
        Reason::Place => "Place",
        Reason::Worker => "Worker",
        Reason::Number => "Number",
        Reason::Try => "Try",
        Reason::Seen => "Seen",
        Reason::Move => "Move",
        Reason::Price => "Price",
        Reason::Verdict => "Verdict",
        Reason::Early => "Early",
    }
}

/// The journal is refused.
pub fn journal_refused_text(alloc: Global, refusal: JournalRefusal) -> Result<Vec<u8>, AllocError>
    ensures { IfOk result (λ text. text.items ≡ journal_refused_text refusal) }
{
    let line = refusal.line;
    let reason = reason_name(refusal.reason);
    let text = format!(in alloc; "journal refused: line {line}: {reason}\n")?;
    Ok(text.into_bytes())
}

/// No timetable was found that breaks no hard rule.
pub fn none_found_text(alloc: Global) -> Result<Vec<u8>, AllocError>
    ensures { IfOk result (λ text. text.items ≡ none_found_text) }
{
    let text = String::from_str(alloc, "none found\n")?;
    Ok(text.into_bytes())
}
